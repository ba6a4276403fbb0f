// Words that stand as values or name operators.
ghost use Rattle.std.specs.Prelude.{◌≡◌, ℕ};
ghost use Rattle.text.specs.Json.{Json, string};
ghost use Rattle.text.specs.Contents.{Stands, Standing};
ghost use Rattle.syntax.specs.Words.{edition_word};
ghost use Rattle.syntax.specs.Members.{is_word};
ghost use Rattle.syntax.specs.PolicyLayout.{effect_of, operator_of};
ghost use Rattle.parts.specs.Spoken.{told_effect, operator_is, told_operator};
ghost use Rattle.parts.specs.Requests.{type_named, number_of_type, TypesTo};
ghost use Rattle.held.specs.Held.{operator_number};

use text::walk::{Kind, Span};

#[derive(Clone, Copy)]
pub enum Effect {
    Allow,
    Deny,
}

#[derive(Clone, Copy)]
pub enum Operator {
    StringEquals,
    StringLike,
    NumericLessThanEquals,
}

impl Operator {
    // The number that stands for it in a held run.
    pub fn number(self) -> u32
        ensures { result ≡ operator_number (operator_is self) }
    {
        match self {
            Operator::StringEquals => 1,
            Operator::StringLike => 2,
            Operator::NumericLessThanEquals => 3,
        }
    }
}

// The types of a context entry's value.
#[derive(Clone, Copy)]
pub enum ValueType {
    Text,
    Number,
}

impl ValueType {
    // The number that stands for it in a held run.
    pub fn number(self) -> u32
        ensures { result ≡ number_of_type self }
    {
        match self {
            ValueType::Text => 1,
            ValueType::Number => 2,
        }
    }
}

// The type that a context entry names, by a string that ends before `end`.
#[derive(Clone, Copy)]
pub struct Typed {
    pub kind: ValueType,
    pub end: usize,
}

// Is the value at a place a string, and this word?
pub fn is_word(s: &[u8], v: usize, w: &[u8]) -> bool
    requires { Standing s.now v }
    ensures { (t : Json) (e : ℕ) → Stands s.now t v e → result ≡ is_word w.now t }
{
    if text::walk::kind_at(s, v) != Kind::Text {
        return false;
    }
    let Span { from, to } = text::walk::quoted(s, v);
    chars::strings::same(&s[from..to], w)
}

// The only Version.
pub fn is_edition(s: &[u8], v: usize) -> bool
    requires { Standing s.now v }
    ensures { (t : Json) (e : ℕ) → Stands s.now t v e → result ≡ is_word edition_word t }
{
    is_word(s, v, b"2012-10-17")
}

pub fn effect_at(s: &[u8], v: usize) -> Option<Effect>
    requires { Standing s.now v }
    ensures { (t : Json) (e : ℕ) → Stands s.now t v e → told_effect result ≡ effect_of t }
{
    if is_word(s, v, b"Allow") {
        return Some(Effect::Allow);
    }
    is_word(s, v, b"Deny").then_some(Effect::Deny)
}

// The operator that a raw name is.
pub fn operator_named(raw: &[u8]) -> Option<Operator>
    ensures { told_operator result ≡ operator_of raw.now }
{
    if chars::strings::same(raw, b"StringEquals") {
        return Some(Operator::StringEquals);
    }
    if chars::strings::same(raw, b"StringLike") {
        return Some(Operator::StringLike);
    }
    if chars::strings::same(raw, b"NumericLessThanEquals") {
        return Some(Operator::NumericLessThanEquals);
    }
    None
}

// The type that a raw string names.
fn type_named(raw: &[u8]) -> Option<ValueType>
    ensures { result ≡ type_named (string raw.now) }
{
    if chars::strings::same(raw, b"string") {
        return Some(ValueType::Text);
    }
    if chars::strings::same(raw, b"numeric") {
        return Some(ValueType::Number);
    }
    None
}

// The type that the value at a place names.
pub fn type_at(s: &[u8], v: usize) -> Option<Typed>
    requires { Standing s.now v }
    ensures { (t : Json) (e : ℕ) → Stands s.now t v e → TypesTo t e result }
{
    if text::walk::kind_at(s, v) != Kind::Text {
        return None;
    }
    let Span { from, to } = text::walk::quoted(s, v);
    let kind = type_named(&s[from..to])?;
    Some(Typed { kind, end: to + 1 })
}
