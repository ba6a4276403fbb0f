// The quick way of the scan: it passes strings, and what is made of strings alone, as most of a policy is. What it does
// not read is left to the scan, which tells where and how a text fails.
ghost use Rattle.std.specs.Prelude.{ℕ, ◌≤◌, length, IfSome};
ghost use Rattle.text.specs.Reading.{Gathered, Fronts};
ghost use Rattle.text.specs.declared.scan.Shape.TheVariants.{List, Object};

use crate::scan::Shape;
use crate::{quoted, scan};

// How far the front of a value goes: to its end; or to a place behind a comma, where more of a list or an object is owed.
#[derive(Clone, Copy)]
pub enum Reach {
    Ends(usize),
    More { at: usize, shape: Shape },
}

// Strings of a list behind its opening bracket, up to the end of the list or to what is no string.
fn strings(s: &[u8], at: usize) -> Option<Reach>
    requires { at ≤ length s.now }
    ensures { (n : ℕ) → IfSome result (Gathered s.now List n at) }
{
    let mut i = scan::space(s, at);
    let mut read = None;
    loop {
        let Some(b'"') = s.get(i) else {
            return read;
        };
        let Ok(e) = quoted::string(s, i + 1) else {
            return read;
        };
        let c = scan::space(s, e);
        match s.get(c) {
            Some(b']') => {
                return Some(Reach::Ends(c + 1));
            }
            Some(b',') => {
                let behind = c + 1;
                read = Some(Reach::More {
                    at: behind,
                    shape: Shape::List,
                });
                i = scan::space(s, behind);
            }
            _ => {
                return read;
            }
        }
    }
}

// Members of an object behind its opening brace, up to the end of the object or to one that is not passed. Their values
// may open so many levels.
#[cycle(front_members_of)]
fn members_of(s: &[u8], at: usize, left: usize) -> Option<Reach>
    requires { at ≤ length s.now }
    ensures { IfSome result (Gathered s.now Object left at) }
{
    let mut i = scan::space(s, at);
    let mut read = None;
    loop {
        let Ok(v) = scan::name(s, i) else {
            return read;
        };
        let Some(Reach::Ends(e)) = front(s, v, left) else {
            return read;
        };
        let c = scan::space(s, e);
        match s.get(c) {
            Some(b'}') => {
                return Some(Reach::Ends(c + 1));
            }
            Some(b',') => {
                read = Some(Reach::More {
                    at: c + 1,
                    shape: Shape::Object,
                });
                i = scan::space(s, c + 1);
            }
            _ => {
                return read;
            }
        }
    }
}

// The front of the value at a place, where at most so many levels may be opened: a string, strings of a list, or
// members of an object.
#[cycle(front_members_of)]
pub fn front(s: &[u8], at: usize, left: usize) -> Option<Reach>
    requires { at ≤ length s.now }
    ensures { IfSome result (Fronts s.now left at) }
{
    match s.get(at) {
        Some(b'"') => {
            let e = quoted::string(s, at + 1).ok()?;
            Some(Reach::Ends(e))
        }
        Some(b'[') if left != 0 => strings(s, at + 1),
        Some(b'{') if left != 0 => members_of(s, at + 1, left - 1),
        _ => None,
    }
}
