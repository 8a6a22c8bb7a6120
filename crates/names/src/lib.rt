// The names of fragments and of answers, and the letters of types, each in places that hold a space where nothing stands.
//
// The contracts cite specs/Names.antt, specs/Letters.antt and specs/Text.antt.
#![tactic(auto)]

ghost use Rattle.std.specs.Prelude.{cond, ◌≡◌, ◌≤◌, length, take};
ghost use Rattle.names.specs.Text.{space, in_places, without_spaces};
ghost use Rattle.names.specs.Names.{kinds, answers, name_in};
ghost use Rattle.names.specs.Letters.{base_letter, correctness_places, malleability_places};

use correctness::{Base, Correctness};
use malleability::Malleability;

// The name of a fragment's kind.
pub fn kind_name(kind: u16) -> [u8; 12]
    ensures { result ≡ in_places 12 (name_in kinds kind) }
{
    // A kind stays a number: a record or a node holds one, and the contract answers on every number.
    match kind {
        32 => *b"False       ",
        33 => *b"True        ",
        34 => *b"PkK         ",
        35 => *b"PkH         ",
        36 => *b"After       ",
        37 => *b"Older       ",
        38 => *b"Sha256      ",
        39 => *b"Hash256     ",
        40 => *b"Ripemd160   ",
        41 => *b"Hash160     ",
        42 => *b"Alt         ",
        43 => *b"Swap        ",
        44 => *b"Check       ",
        45 => *b"DupIf       ",
        46 => *b"Verify      ",
        47 => *b"NonZero     ",
        48 => *b"ZeroNotEqual",
        49 => *b"AndB        ",
        50 => *b"AndV        ",
        51 => *b"OrB         ",
        52 => *b"OrD         ",
        53 => *b"OrC         ",
        54 => *b"OrI         ",
        55 => *b"AndOr       ",
        56 => *b"Thresh      ",
        57 => *b"Multi       ",
        58 => *b"MultiA      ",
        _ => *b"            ",
    }
}

// The name of a call's number.
pub fn answer_name(number: u32) -> [u8; 16]
    ensures { result ≡ in_places 16 (name_in answers number) }
{
    // A number stays one: the contract names the numbers that no entry answers, too.
    match number {
        0 => *b"done            ",
        1 => *b"BadContext      ",
        2 => *b"BadWork         ",
        3 => *b"BadPolicy       ",
        4 => *b"ZeroWeight      ",
        5 => *b"PolicyTooLarge  ",
        6 => *b"NodesFull       ",
        7 => *b"TableFull       ",
        8 => *b"CacheFull       ",
        9 => *b"FuelSpent       ",
        10 => *b"NotACost        ",
        11 => *b"LimitsExceeded  ",
        12 => *b"TopLevelNonSafe ",
        13 => *b"OutputTooSmall  ",
        14 => *b"BadTree         ",
        15 => *b"IllTyped        ",
        16 => *b"TreeTooLarge    ",
        17 => *b"NoEntry         ",
        18 => *b"KeyTooLarge     ",
        19 => *b"TreeTooTall     ",
        20 => *b"OtherIndex      ",
        21 => *b"TooManyVariables",
        22 => *b"NotBaseB        ",
        23 => *b"Unsafe          ",
        24 => *b"Malleable       ",
        25 => *b"LocallyInvalid  ",
        26 => *b"OtherMeaning    ",
        _ => *b"                ",
    }
}

// The letter of a base.
fn base_letter(base: Base) -> u8
    ensures { result ≡ base_letter base }
{
    match base {
        Base::B => b'B',
        Base::K => b'K',
        Base::V => b'V',
        Base::W => b'W',
    }
}

// A letter where its property holds, a space where it does not.
fn letter_if(holds: bool, letter: u8) -> u8
    ensures { result ≡ cond holds letter space }
{
    if holds { letter } else { b' ' }
}

// The base, then z o n d u.
pub fn correctness_letters(c: Correctness) -> [u8; 6]
    ensures { result ≡ correctness_places c }
{
    let base = c.base;
    let input = c.input;
    let b = base_letter(base);
    let z = letter_if(input.is_zero(), b'z');
    let o = letter_if(input.is_one(), b'o');
    let n = letter_if(input.is_nonzero(), b'n');
    let d = letter_if(c.dissatisfiable, b'd');
    let u = letter_if(c.unit, b'u');
    [b, z, o, n, d, u]
}

// e f s m.
pub fn malleability_letters(m: Malleability) -> [u8; 4]
    ensures { result ≡ malleability_places m }
{
    let dissat = m.dissat;
    let e = letter_if(dissat.is_unique(), b'e');
    let f = letter_if(dissat.is_none(), b'f');
    let s = letter_if(m.safe, b's');
    let nm = letter_if(m.non_malleable, b'm');
    [e, f, s, nm]
}

// Moves what stands in the places that are no spaces to the front, and answers how many there are.
pub fn close_up(text: &mut [u8]) -> usize
    ensures prefix_len { result ≤ length text.new }
    ensures taken { result ≡ length (take result text.new) }
    ensures text_after { take result text.new ≡ without_spaces text.old }
{
    let mut n = 0;
    for i in 0..text.len() {
        let b = text[i];
        if b == b' ' {
            continue;
        }
        text[n] = b;
        n += 1;
    }
    n
}
