// The entries of a held policy in reading order, with a note of each: how its row is handled, its list, its place in
// the run, and what a request charges to it.
ghost use Rattle.std.specs.Prelude.{◌≡◌, List, ◌+◌, length};
ghost use Rattle.syntax.specs.Policy as meant;
ghost use Rattle.syntax.specs.Policy.{Effect, Value, Row, Statement, Policy, Context, Request};
ghost use Rattle.held.specs.Held.{held_value, held_list, held_row, held_statement, held, held_request};
ghost use Rattle.held.specs.Held.{effect_number, operator_number, statement_entries, row_entries, entries};
ghost use Rattle.held.specs.Lying.{Lies, Lying};
ghost use Rattle.parts.specs.Spoken.{operator_is};
ghost use Rattle.decision.specs.Decision.{Found, value_at};
ghost use Rattle.decision.specs.Deciding.{or_else};
ghost use Rattle.candidates.specs.Entries.{comparison};
ghost use Rattle.candidates.specs.Places.{place_is};
ghost use Rattle.rooms.specs.Rooms.{Slot, slots_at, row_slots, statement_slots, slots, hit, hits, row_hits, none};
ghost use Rattle.rooms.specs.Rooms.{statement_hits};
ghost use Rattle.chars.specs.Base.{pick};
ghost use Rattle.rooms.specs.Listing.{handling, Valued, Carried, Asked, Asking, Effecting};
ghost use Rattle.rooms.specs.Listing.{Lists, ListsTo, Listable, statement_found, denying, Judges};

use candidates::places::Place;
use decision::deciding;
use decision::deciding::Decision;
use held::{limits, places};
use parts::words::Operator;

// What the row of an entry can hold: nothing, the entry itself alone, what its wildcards match, or numbers.
#[derive(Clone, Copy)]
pub enum Handling {
    Nothing,
    Itself,
    Wild,
    Number,
}

// An entry: how its row is handled, its list, where it lies in the run, and where the value lies that a request charges
// to it.
#[derive(Clone, Copy)]
pub struct Note {
    pub handling: Handling,
    pub place: Place,
    pub entry: usize,
    pub value: Option<usize>,
}

// What stands where nothing is noted yet.
pub const BLANK: Note = Note {
    handling: Handling::Nothing,
    place: Place::Action,
    entry: 0,
    value: None,
};

// The notes end before `next`, and what was listed ends before `past` in the held run.
#[derive(Clone, Copy)]
pub struct Noted {
    pub next: usize,
    pub past: usize,
}

// A decision, and before which place the notes end if a request is to be charged.
#[derive(Clone, Copy)]
pub struct Judged {
    pub decision: Decision,
    pub notes: usize,
}

impl Handling {
    fn of(effect: u32, place: Place, run: &[u32], e: usize) -> Handling
        requires { Lying held_value run.now e }
        ensures { (s : Slot) → effect ≡ effect_number s.effect → place_is place ≡ s.place → Lies run.now e (held_value s.entry) → result ≡ handling s }
    {
        if effect != 1 {
            return Handling::Nothing;
        }
        let is_number = run[e] >= limits::MARK;
        match comparison(place) {
            Operator::StringEquals => Handling::Itself,
            Operator::StringLike => if is_number {
                Handling::Itself
            } else {
                Handling::Wild
            },
            Operator::NumericLessThanEquals => if is_number {
                Handling::Number
            } else {
                Handling::Itself
            },
        }
    }
}

// The operator that a row's number names.
fn operator_of_row(number: u32) -> Operator
    ensures { (o : meant.Operator) → number ≡ operator_number o → operator_is result ≡ o }
{
    match number {
        1 => Operator::StringEquals,
        2 => Operator::StringLike,
        _ => Operator::NumericLessThanEquals,
    }
}

// The operator by which the entries of a list are compared.
fn comparison(place: Place) -> Operator
    ensures { operator_is result ≡ comparison (place_is place) }
{
    match place {
        Place::Action | Place::Resource => Operator::StringLike,
        Place::Row(operator) => operator,
    }
}

// The value, if there is one and the entry matches it.
fn hit(place: Place, run: &[u32], e: usize, request: &[u32], value: Option<usize>) -> Option<usize>
    requires { (Lying held_value run.now e) × (Carried request.now value) }
    ensures { (x : Value) (f : Found) → Lies run.now e (held_value x) → Valued request.now value f → Valued request.now result (hit (place_is place) f x) }
{
    let v = value?;
    let operator = comparison(place).number();
    if !deciding::meets_at(run, e, operator, request, v) {
        return None;
    }
    Some(v)
}

// The entries of the list at a place, each with the value if it matches it.
fn list_entries(
    effect: u32,
    place: Place,
    run: &[u32],
    at: usize,
    request: &[u32],
    value: Option<usize>,
    dir: &mut [Note],
    o: usize,
) -> Noted
    requires { (Effecting effect) × (Listable (held_list held_value) length run.now at dir.old o) × (Carried request.now value) }
    ensures { (a : Effect) (xs : List Value) (f : Found) → effect ≡ effect_number a → Lies run.now at (held_list held_value xs) → Valued request.now value f → ListsTo run.now request.now (slots_at a (place_is place) xs) (hits (place_is place) f xs) dir.old o dir.new (at + length (held_list held_value xs)) result }
{
    let many = run[at] as usize;
    let mut next = o;
    let mut e = at + 1;
    for i in 0..many {
        let handling = Handling::of(effect, place, run, e);
        let value = hit(place, run, e, request, value);
        dir[next] = Note {
            handling,
            place,
            entry: e,
            value,
        };
        next += 1;
        e = places::past_value(run, e);
    }
    Noted { next, past: e }
}

// The place of the value that the row at a place is asked for, if there is one.
fn value_of(run: &[u32], p: usize, request: &[u32], contexts: Option<usize>) -> Option<usize>
    requires { (Lying held_row run.now p) × (Asking request.now contexts) }
    ensures { (x : Row) (cs : List Context) → Lies run.now p (held_row x) → Asked request.now contexts cs → Valued request.now result (value_at x.key cs) }
{
    let at = contexts?;
    let c = deciding::key_place(run, p + 1, request, at)?;
    Some(places::behind_label(request, c))
}

// The entries of the rows of the list at a place.
fn list_rows(
    effect: u32,
    run: &[u32],
    at: usize,
    request: &[u32],
    contexts: Option<usize>,
    dir: &mut [Note],
    o: usize,
) -> Noted
    requires { (Effecting effect) × (Listable (held_list held_row) row_entries run.now at dir.old o) × (Asking request.now contexts) }
    ensures { (a : Effect) (xs : List Row) (cs : List Context) → effect ≡ effect_number a → Lies run.now at (held_list held_row xs) → Asked request.now contexts cs → ListsTo run.now request.now (row_slots a xs) (row_hits xs cs) dir.old o dir.new (at + length (held_list held_row xs)) result }
{
    let n = run[at] as usize;
    let mut next = o;
    let mut p = at + 1;
    for i in 0..n {
        let v = value_of(run, p, request, contexts);
        let l = places::behind_label(run, p);
        let place = Place::Row(operator_of_row(run[p]));
        let g = list_entries(effect, place, run, l, request, v, dir, next);
        next = g.next;
        p = g.past;
    }
    Noted { next, past: p }
}

// The entries of the statement at a place, asked for an action, a resource and context entries.
fn list_parts(
    run: &[u32],
    p: usize,
    request: &[u32],
    action: Option<usize>,
    resource: Option<usize>,
    contexts: Option<usize>,
    dir: &mut [Note],
    o: usize,
) -> Noted
    requires { (Listable held_statement statement_entries run.now p dir.old o) × (Carried request.now action) × (Carried request.now resource) × (Asking request.now contexts) }
    ensures { (s : Statement) (f g : Found) (cs : List Context) → Lies run.now p (held_statement s) → Valued request.now action f → Valued request.now resource g → Asked request.now contexts cs → ListsTo run.now request.now (statement_slots s) (statement_found s f g cs) dir.old o dir.new (p + length (held_statement s)) result }
{
    let effect = run[p];
    let a = places::behind_label(run, p);
    let b = list_entries(effect, Place::Action, run, a, request, action, dir, o);
    let c = list_entries(
        effect,
        Place::Resource,
        run,
        b.past,
        request,
        resource,
        dir,
        b.next,
    );
    list_rows(effect, run, c.past, request, contexts, dir, c.next)
}

// The entries of a policy, asked for nothing.
pub fn list_policy(run: &[u32], dir: &mut [Note]) -> usize
    requires { Listable held entries run.now 0 dir.old 0 }
    ensures { (p : Policy) → Lies run.now 0 (held p) → Lists run.now run.now (slots p) (none (slots p)) dir.old 0 result dir.new }
{
    let n = run[0] as usize;
    let mut next = 0usize;
    let mut p = 1usize;
    for i in 0..n {
        let g = list_parts(run, p, run, None, None, None, dir, next);
        next = g.next;
        p = g.past;
    }
    next
}

// The entries of the statement at a place, with what a request charges to them if the statement holds.
fn list_if(run: &[u32], p: usize, request: &[u32], holds: bool, dir: &mut [Note], o: usize) -> Noted
    requires { (Listable held_statement statement_entries run.now p dir.old o) × (Lying held_request request.now 0) }
    ensures { (s : Statement) (q : Request) → Lies run.now p (held_statement s) → Lies request.now 0 (held_request q) → ListsTo run.now request.now (statement_slots s) (pick holds (statement_hits s q) (none (statement_slots s))) dir.old o dir.new (p + length (held_statement s)) result }
{
    if !holds {
        return list_parts(run, p, request, None, None, None, dir, o);
    }
    let t = places::past_value(request, 0);
    let c = places::past_value(request, t);
    list_parts(run, p, request, Some(0), Some(t), Some(c), dir, o)
}

// Is the statement at a place a Deny that holds?
fn is_denying(run: &[u32], p: usize, holds: bool) -> bool
    requires { Lying held_statement run.now p }
    ensures { (s : Statement) → Lies run.now p (held_statement s) → result ≡ denying s holds }
{
    holds && run[p] != 1
}

// The number of the first statement that holds: the one there was, or k if none was and the k-th holds; 0 where none.
fn first_of(allowed: usize, holds: bool, k: usize) -> usize
    ensures { result ≡ or_else allowed (pick holds k 0) }
{
    if allowed != 0 {
        return allowed;
    }
    if holds {
        return k;
    }
    0
}

// The decision on a request, and the entries of the policy with what the request charges to them, in one walk.
pub fn decide_policy(run: &[u32], request: &[u32], dir: &mut [Note]) -> Judged
    requires { (Listable held entries run.now 0 dir.old 0) × (Lying held_request request.now 0) }
    ensures { (p : Policy) (q : Request) → Lies run.now 0 (held p) → Lies request.now 0 (held_request q) → Judges run.now request.now p q dir.old dir.new result }
{
    let n = run[0] as usize;
    let mut next = 0usize;
    let mut p = 1usize;
    let mut allowed = 0usize;
    for i in 0..n {
        let holds = deciding::first_failing(run, p, request).is_none();
        if is_denying(run, p, holds) {
            return Judged {
                decision: Decision::Denied(i + 1),
                notes: 0,
            };
        }
        allowed = first_of(allowed, holds, i + 1);
        let g = list_if(run, p, request, holds, dir, next);
        next = g.next;
        p = g.past;
    }
    if allowed == 0 {
        return Judged {
            decision: Decision::Implicit,
            notes: 0,
        };
    }
    Judged {
        decision: Decision::Allowed(allowed),
        notes: next,
    }
}
