// The text layer as numbers, for tests and measurements from Rust. No part of the product.
#![tactic(auto)]

ghost use Rattle.std.specs.Prelude.{◌≡◌};
ghost use Rattle.text_probe.specs.Numbers.{scanning, decoding, writing};

use chars::strings::DecodeError;
use chars::{strings, written};
use text::fault::Fault;
use text::scan;

// Which answer it is, and the number that it holds, or 0 where it holds none.
#[repr(C)]
#[derive(Clone, Copy)]
pub struct Answer {
    pub which: u64,
    pub number: usize,
}

// What the bytes are: 0 whole, 1 breaks at a place, 2 deep.
#[unsafe(no_mangle)]
pub extern "C" fn text_probe_scan(s: &[u8]) -> Answer
    ensures { result ≡ scanning s.now }
{
    match scan::scan(s) {
        Ok(()) => Answer {
            which: 0,
            number: 0,
        },
        Err(Fault::Breaks(p)) => Answer {
            which: 1,
            number: p,
        },
        Err(Fault::Deep) => Answer {
            which: 2,
            number: 0,
        },
    }
}

// The characters of a string: 0 so many, 1 a lone surrogate, 2 the room is too short.
#[unsafe(no_mangle)]
pub extern "C" fn text_probe_decode(s: &[u8], out: &mut [u32]) -> Answer
    ensures { (result, out.new) ≡ decoding s.now out.old }
{
    match strings::decode(s, out) {
        Ok(n) => Answer {
            which: 0,
            number: n,
        },
        Err(DecodeError::Lone) => Answer {
            which: 1,
            number: 0,
        },
        Err(DecodeError::Short) => Answer {
            which: 2,
            number: 0,
        },
    }
}

// The written form of characters: 0 so many bytes, 1 the room is too short.
#[unsafe(no_mangle)]
pub extern "C" fn text_probe_write(cs: &[u32], out: &mut [u8]) -> Answer
    ensures { (result, out.new) ≡ writing cs.now out.old }
{
    match written::write_text(cs, out) {
        Some(n) => Answer {
            which: 0,
            number: n,
        },
        None => Answer {
            which: 1,
            number: 0,
        },
    }
}
