// A walk over a text known to be whole, in place: each function promises which piece of the tree stands where.
ghost use Rattle.std.specs.Prelude.{Ok, true, ◌≡◌, ℕ, ◌+◌, get_or, List};
ghost use Rattle.text.specs.Json.{Json, Values, Members, list, object, string};
ghost use Rattle.text.specs.Machine.{verdict};
ghost use Rattle.text.specs.Contents.{Stands, Rest, Others, Standing, StandingText, StandingList};
ghost use Rattle.text.specs.Contents.{StandingObject, Resting, Continuing, kind_of, Raw, Comes, Leads, Rooted};
ghost use Rattle.text.specs.Contents.{Entry, Entering};
ghost use Rattle.text.specs.Skipping.{level, Steps, Closes, Plain, Idles};
ghost use Rattle.text.specs.Skipping.{Stepping, Counting, Waiting, Closing};

use crate::{ends, scan};

// What kind of value stands at a place.
#[derive(Clone, Copy, PartialEq, Eq)]
pub enum Kind {
    Null,
    True,
    False,
    Number,
    Text,
    List,
    Object,
}

// What stands between the two quotes of a string: from one place up to another.
#[derive(Clone, Copy)]
pub struct Span {
    pub from: usize,
    pub to: usize,
}

// An element of a list, or the place past the list.
#[derive(Clone, Copy)]
pub enum Element {
    At(usize),
    Past(usize),
}

// A member of an object: its name stands from `name` up to `end`, its value at `value`; or the place past the object.
#[derive(Clone, Copy)]
pub enum Member {
    Named {
        name: usize,
        end: usize,
        value: usize,
    },
    Past(usize),
}

// The place of the value of a whole text.
pub fn root(s: &[u8]) -> usize
    requires { verdict s.now ≡ Ok tt }
    ensures { Rooted s.now result }
{
    scan::space(s, 0)
}

// The place behind a byte, and behind a whole string where a quote opens one.
fn past_one(s: &[u8], i: usize) -> usize
    requires { Stepping s.now i }
    ensures { (j : ℕ) → Steps s.now i j → result ≡ j }
{
    if s[i] != b'"' {
        return i + 1;
    }
    ends::past_quote(s, i + 1)
}

// How many brackets are open behind the byte at a place.
fn open_past(s: &[u8], i: usize, deep: usize) -> usize
    requires { Counting s.now i deep }
    ensures { result ≡ level (get_or s.now i 0) deep }
{
    let b = s[i];
    match b {
        b'[' => deep + 1,
        b']' => deep - 1,
        b'{' => deep + 1,
        b'}' => deep - 1,
        _ => deep,
    }
}

// Is it a byte that is no quote and no bracket?
fn idle(b: u8) -> bool
    ensures { result ≡ true → Plain b }
{
    (b != b'"') & (b != b'[') & (b != b']') & (b != b'{') & (b != b'}')
}

// The place of the next quote or bracket: one comes, since a bracket is open.
fn past_idle(s: &[u8], at: usize) -> usize
    requires { Waiting s.now at }
    ensures { Idles s.now at result }
{
    let mut i = at;
    while idle(s[i]) {
        i += 1;
    }
    i
}

// The place past the list or object that opens at a place: brackets are counted, strings passed whole.
fn past_closed(s: &[u8], v: usize) -> usize
    requires { Closing s.now v }
    ensures { (e : ℕ) → Closes s.now 1 (v + 1) e → result ≡ e }
{
    let mut i = v + 1;
    let mut deep: usize = 1;
    while 0 < deep {
        i = past_idle(s, i);
        deep = open_past(s, i, deep);
        i = past_one(s, i);
    }
    i
}

// The place past a value that is no list and no object.
fn past_leaf(s: &[u8], v: usize) -> usize
    requires { Standing s.now v }
    ensures { (t : Json) (e : ℕ) → Stands s.now t v e → result ≡ e }
{
    scan::value(s, v, scan::LEVELS).unwrap_or(v)
}

// The place past the value that stands at a place.
pub fn past_value(s: &[u8], v: usize) -> usize
    requires { Standing s.now v }
    ensures { (t : Json) (e : ℕ) → Stands s.now t v e → result ≡ e }
{
    let b = s[v];
    match b {
        b'[' | b'{' => past_closed(s, v),
        b'"' => ends::past_quote(s, v + 1),
        _ => past_leaf(s, v),
    }
}

// The kind of the value that stands at a place, told by its first byte.
pub fn kind_at(s: &[u8], v: usize) -> Kind
    requires { Standing s.now v }
    ensures { (t : Json) (e : ℕ) → Stands s.now t v e → result ≡ kind_of t }
{
    let b = s[v];
    match b {
        b'"' => Kind::Text,
        b'[' => Kind::List,
        b'f' => Kind::False,
        b'n' => Kind::Null,
        b't' => Kind::True,
        b'{' => Kind::Object,
        _ => Kind::Number,
    }
}

// The raw part of the string that stands at a place.
pub fn quoted(s: &[u8], v: usize) -> Span
    requires { StandingText s.now v }
    ensures { (w : List ℕ) (e : ℕ) → Stands s.now (string w) v e → Raw s.now w e result }
{
    let from = v + 1;
    Span {
        from: from,
        to: ends::past_quote(s, from) - 1,
    }
}

// The first element of the list that stands at a place.
pub fn first_element(s: &[u8], v: usize) -> Element
    requires { StandingList s.now v }
    ensures { (ts : Values) (e : ℕ) → Stands s.now (list ts) v e → Comes s.now v ts e result }
{
    let i = scan::space(s, v + 1);
    if s[i] == b']' {
        return Element::Past(i + 1);
    }
    Element::At(i)
}

// The element behind the one that ends at a place.
pub fn next_element(s: &[u8], i: usize) -> Element
    requires { Resting s.now i }
    ensures { (ts : Values) (e : ℕ) → Rest s.now ts i e → Comes s.now i ts e result }
{
    let j = scan::space(s, i);
    if s[j] == b']' {
        return Element::Past(j + 1);
    }
    Element::At(scan::space(s, j + 1))
}

// The member whose name's opening quote stands at a place.
pub fn entry(s: &[u8], i: usize) -> Member
    requires { Entering s.now i }
    ensures { (ms : Members) (e : ℕ) → Entry s.now ms i e → Leads s.now i ms e result }
{
    let q = ends::past_quote(s, i + 1);
    let c = scan::space(s, q);
    let v = scan::space(s, c + 1);
    Member::Named {
        name: i + 1,
        end: q - 1,
        value: v,
    }
}

// The first member of the object that stands at a place.
pub fn first_member(s: &[u8], v: usize) -> Member
    requires { StandingObject s.now v }
    ensures { (ms : Members) (e : ℕ) → Stands s.now (object ms) v e → Leads s.now v ms e result }
{
    let i = scan::space(s, v + 1);
    if s[i] == b'}' {
        return Member::Past(i + 1);
    }
    entry(s, i)
}

// The member behind the one that ends at a place.
pub fn next_member(s: &[u8], i: usize) -> Member
    requires { Continuing s.now i }
    ensures { (ms : Members) (e : ℕ) → Others s.now ms i e → Leads s.now i ms e result }
{
    let j = scan::space(s, i);
    if s[j] == b'}' {
        return Member::Past(j + 1);
    }
    entry(s, scan::space(s, j + 1))
}
