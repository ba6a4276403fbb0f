// The decision: which statement of a held policy denies or allows a held request.
ghost use Rattle.std.specs.Prelude.{◌≡◌, List, ℕ, ◌+◌, leb, length};
ghost use Rattle.syntax.specs.Policy.{Operator, Value, Row, Statement, Policy, Context, Request};
ghost use Rattle.held.specs.Held.{held_text, held_number, held_value, held_list, held_context};
ghost use Rattle.held.specs.Held.{held_row, held_statement, held, held_request, operator_number, type_number, any_of};
ghost use Rattle.held.specs.Lying.{Lies, Lying};
ghost use Rattle.held.specs.Places.{Operating};
ghost use Rattle.decision.specs.Decision.{typed, meets, value_at, row_result, rows_from, part_of, decide};
ghost use Rattle.decision.specs.Deciding.{Finds, told_result, told_part, part_behind};

use crate::matching;
use held::{limits, places, runs};
use syntax::forms;

// The numbers of the effect Deny, of the operators and of a text's and a number's type.
const DENY: u32 = 2;

const STRING_EQUALS: u32 = 1;

const STRING_LIKE: u32 = 2;

const NUMERIC_LESS_THAN_EQUALS: u32 = 3;

const TEXT: u32 = 1;

const NUMBER: u32 = 2;

// Denied or allowed by a statement, counted from 1; or denied by none and allowed by none.
#[derive(Clone, Copy)]
pub enum Decision {
    Denied(usize),
    Allowed(usize),
    Implicit,
}

// Why a row does not hold: its key is missing, the value is of another type, or no entry meets it.
#[derive(Clone, Copy)]
pub enum Why {
    Missing,
    OtherType,
    NoEntry,
}

// A part of a statement that does not hold: a row by its place in the statement, counted from 1, and why not.
#[derive(Clone, Copy)]
pub enum Failing {
    Action,
    Resource,
    Row(usize, Why),
}

// The text at a place.
fn text_at(run: &[u32], at: usize) -> &[u32]
    requires { Lying held_text run.now at }
    ensures { (x : List ℕ) → Lies run.now at (held_text x) → result.now ≡ x }
{
    let from = at + 1;
    let to = from + run[at] as usize;
    &run[from..to]
}

// Is the number at a place of the request not above the entry at a place of the policy?
fn not_above_at(policy: &[u32], e: usize, request: &[u32], v: usize) -> bool
    requires { (Lying held_number policy.now e) × (Lying held_number request.now v) }
    ensures { (n m : ℕ) → Lies policy.now e (held_number n) → Lies request.now v (held_number m) → result ≡ leb m n }
{
    places::number_at(request, v) <= places::number_at(policy, e)
}

// Does an operator compare with values of a type?
fn typed(operator: u32, kind: u32) -> bool
    ensures { (o : Operator) (v : Value) → operator ≡ operator_number o → kind ≡ type_number v → result ≡ typed o v }
{
    match operator {
        NUMERIC_LESS_THAN_EQUALS => kind == NUMBER,
        _ => kind == TEXT,
    }
}

// Does the entry at a place of the policy meet the value at a place of the request?
pub fn meets_at(policy: &[u32], e: usize, operator: u32, request: &[u32], v: usize) -> bool
    requires { (Lying held_value policy.now e) × (Lying held_value request.now v) }
    ensures { (o : Operator) (x y : Value) → operator ≡ operator_number o → Lies policy.now e (held_value x) → Lies request.now v (held_value y) → result ≡ meets o x y }
{
    match (policy[e] >= limits::MARK, request[v] >= limits::MARK) {
        (true, true) => operator == NUMERIC_LESS_THAN_EQUALS && not_above_at(policy, e, request, v),
        (false, false) => match operator {
            STRING_EQUALS => forms::same_text(text_at(policy, e), text_at(request, v)),
            STRING_LIKE => matching::matches(text_at(policy, e), text_at(request, v)),
            _ => false,
        },
        _ => false,
    }
}

// Does some entry of the list at a place of the policy meet the value at a place of the request?
fn some_meets(policy: &[u32], at: usize, operator: u32, request: &[u32], v: usize) -> bool
    requires { (Operating operator) × (Lying (held_list held_value) policy.now at) × (Lying held_value request.now v) }
    ensures { (o : Operator) (xs : List Value) (y : Value) → operator ≡ operator_number o → Lies policy.now at (held_list held_value xs) → Lies request.now v (held_value y) → result ≡ any_of (λ x. meets o x y) xs }
{
    let n = policy[at] as usize;
    let mut e = at + 1;
    for _ in 0..n {
        if meets_at(policy, e, operator, request, v) {
            return true;
        }
        e = places::past_value(policy, e);
    }
    false
}

// The place of the context entry that has the key at a place of the policy, in the list at a place of the request.
pub fn key_place(policy: &[u32], k: usize, request: &[u32], at: usize) -> Option<usize>
    requires { (Lying held_text policy.now k) × (Lying (held_list held_context) request.now at) }
    ensures { (x : List ℕ) (cs : List Context) → Lies policy.now k (held_text x) → Lies request.now at (held_list held_context cs) → Finds request.now result (value_at x cs) }
{
    let key = text_at(policy, k);
    let n = request[at] as usize;
    let mut c = at + 1;
    for _ in 0..n {
        if forms::same_key(key, text_at(request, c + 1)) {
            return Some(c);
        }
        c = places::past_value(request, places::behind_label(request, c));
    }
    None
}

// Why the row at a place of the policy does not hold for the context entries at a place of the request, if it does not.
fn row_result(policy: &[u32], p: usize, request: &[u32], contexts: usize) -> Option<Why>
    requires { (Lying held_row policy.now p) × (Lying (held_list held_context) request.now contexts) }
    ensures { (x : Row) (cs : List Context) → Lies policy.now p (held_row x) → Lies request.now contexts (held_list held_context cs) → result ≡ told_result (row_result x cs) }
{
    let Some(c) = key_place(policy, p + 1, request, contexts) else {
        return Some(Why::Missing);
    };
    let operator = policy[p];
    if !typed(operator, request[c]) {
        return Some(Why::OtherType);
    }
    let l = places::behind_label(policy, p);
    let v = places::behind_label(request, c);
    if some_meets(policy, l, operator, request, v) {
        None
    } else {
        Some(Why::NoEntry)
    }
}

// The first row that does not hold, of those in the list at a place of the policy.
fn failing_row(policy: &[u32], at: usize, request: &[u32], contexts: usize) -> Option<Failing>
    requires { (Lying (held_list held_row) policy.now at) × (Lying (held_list held_context) request.now contexts) }
    ensures { (xs : List Row) (cs : List Context) → Lies policy.now at (held_list held_row xs) → Lies request.now contexts (held_list held_context cs) → result ≡ told_part (rows_from 1 xs cs) }
{
    let n = policy[at] as usize;
    let mut p = at + 1;
    for i in 0..n {
        if let Some(why) = row_result(policy, p, request, contexts) {
            return Some(Failing::Row(i + 1, why));
        }
        p = runs::row(policy, p).past;
    }
    None
}

// The first part of the statement at a place that does not hold, but for its Action.
fn failing_behind(policy: &[u32], p: usize, request: &[u32]) -> Option<Failing>
    requires { (Lying held_statement policy.now p) × (Lying held_request request.now 0) }
    ensures { (x : Statement) (q : Request) → Lies policy.now p (held_statement x) → Lies request.now 0 (held_request q) → result ≡ told_part (part_behind x q) }
{
    let l = runs::list(policy, places::behind_label(policy, p)).past;
    let t = places::past_value(request, 0);
    if !some_meets(policy, l, STRING_LIKE, request, t) {
        return Some(Failing::Resource);
    }
    let w = runs::list(policy, l).past;
    let contexts = places::past_value(request, t);
    failing_row(policy, w, request, contexts)
}

// The first part of the statement at a place that does not hold.
pub fn first_failing(policy: &[u32], p: usize, request: &[u32]) -> Option<Failing>
    requires { (Lying held_statement policy.now p) × (Lying held_request request.now 0) }
    ensures { (x : Statement) (q : Request) → Lies policy.now p (held_statement x) → Lies request.now 0 (held_request q) → result ≡ told_part (part_of x q) }
{
    let a = places::behind_label(policy, p);
    if !some_meets(policy, a, STRING_LIKE, request, 0) {
        return Some(Failing::Action);
    }
    failing_behind(policy, p, request)
}

// The statement that decides: the first Deny that matches; where none does, the first Allow that matches. The loops
// count by hand and are left by break with a statement's number: that form is ordered for this function.
pub fn decide(policy: &[u32], request: &[u32]) -> Decision
    requires { (Lying held policy.now 0) × (Lying held_request request.now 0) }
    ensures { (x : Policy) (q : Request) → Lies policy.now 0 (held x) → Lies request.now 0 (held_request q) → result ≡ decide x q }
{
    let n = policy[0] as usize;
    let action = text_at(request, 0);
    let mut p = 1usize;
    let mut i = 0usize;
    let mut allowed: Option<usize> = None;
    let denied = 'statements: loop {
        if i == n {
            break 'statements None;
        }
        let l = places::behind_label(policy, p);
        let m = policy[l] as usize;
        let mut e = l + 1;
        let mut j = 0usize;
        let matching = 'entries: loop {
            if j == m {
                break 'entries None;
            }
            if matching::matches(text_at(policy, e), action) {
                if failing_behind(policy, p, request).is_some() {
                    break 'entries None;
                }
                if policy[p] == DENY {
                    break 'statements Some(i + 1);
                }
                break 'entries Some(i + 1);
            }
            e = places::past_value(policy, e);
            j += 1;
        };
        allowed = allowed.or(matching);
        p = runs::statement(policy, p).past;
        i += 1;
    };
    match (denied, allowed) {
        (Some(k), _) => Decision::Denied(k),
        (None, Some(k)) => Decision::Allowed(k),
        (None, None) => Decision::Implicit,
    }
}
