//! The text that the units of another spell, and where its bytes stand in that one.
ghost use Rattle.std.specs.Prelude.{◌≡◌, ◌<◌, ◌^◌, ◌+◌, ◌-◌, ◌*◌, ◌++◌, List, true, length, string_bytes, replicate, IfOk, IfErr, IsOkUnless, OnOk};
ghost use Rattle.java_model.specs.Lexical.Characters.{is_within};
ghost use Rattle.java_model.specs.Lexical.Escapes.{Input, width_of};
ghost use Rattle.java_scan.specs.Joining.{char_of, Pushes, PassesRun, PushesRun, IsHigh, IsJoining, Starts, Joins, IsJoined, IsUnescapedTo, IsEscapeFault};

use crate::cursor::Cursor;
use crate::fault::ScanFault;
use std::alloc::Global;

/// A character of the text or a UTF-16 unit of an escape, and the byte at which it begins.
#[derive(Clone, Copy)]
struct Unit {
    code: u32,
    at: u32,
}

/// A text after Unicode escapes.
#[derive(Drop)]
pub struct Unescaped {
    pub text: String,
    /// For each byte of `text`, and for its end, the byte of the text with escapes at which its character begins.
    pub places: Vec<u32>,
}

fn is_high(code: u32) -> bool
    ensures { result ≡ is_within 0xd800 0xdbff code }
{
    code >= 0xd800 && code <= 0xdbff
}

fn is_low(code: u32) -> bool
    ensures { result ≡ is_within 0xdc00 0xdfff code }
{
    code >= 0xdc00 && code <= 0xdfff
}

/// The code of a surrogate pair.
fn pair_of(high: u32, low: u32) -> u32
    requires high { is_within 0xd800 0xdbff high ≡ true }
    requires low { is_within 0xdc00 0xdfff low ≡ true }
    ensures value { result ≡ 0x1_0000 + (high - 0xd800) * 1024 + (low - 0xdc00) }
    ensures small { result < 1114112 }
{
    0x1_0000 + (high - 0xd800) * 1024 + (low - 0xdc00)
}

/// The character of a code, and U+FFFD for a surrogate.
fn character_of(code: u32) -> char
    requires { code < 1114112 }
    ensures { result ≡ char_of code }
{
    match char::from_u32(code) {
        Some(c) => c,
        None => '\u{fffd}',
    }
}

/// Puts a place at the end so many times, which is once for most characters.
fn push_places(places: &mut Vec<u32>, place: u32, count: usize) -> Result<(), ScanFault>
    ensures ok { OnOk result (places.new.items ≡ places.old.items ++ replicate count place) }
    ensures err { IsOkUnless result ScanFault.NoMemory }
{
    if count == 1 {
        places.push(place)?;
        return Ok(());
    }
    for _i in 0..count {
        places.push(place)?;
    }
    Ok(())
}

/// Moves on over the characters up to the next backslash, or to the end, and puts their places at the end.
fn run_places(cursor: &mut Cursor, places: &mut Vec<u32>) -> Result<(), ScanFault>
    ensures ok { OnOk result (PassesRun cursor.old cursor.new places.old.items places.new.items) }
    ensures err { IsOkUnless result ScanFault.NoMemory }
{
    while let Some(c) = cursor.peek() {
        if c == '\\' {
            return Ok(());
        }
        push_places(places, cursor.offset(), c.len_utf8())?;
        cursor.skip(c);
    }
    Ok(())
}

impl Unescaped {
    /// Puts the characters up to the next backslash, or to the end, at the end.
    fn push_run(&mut self, cursor: &mut Cursor) -> Result<(), ScanFault>
        ensures ok { OnOk result (PushesRun cursor.old cursor.new
            (string_bytes self.old.text) self.old.places.items (string_bytes self.new.text) self.new.places.items) }
        ensures err { IsOkUnless result ScanFault.NoMemory }
    {
        let start = cursor.copy();
        run_places(cursor, &mut self.places)?;
        self.text.push_str(cursor.text_since(&start))?;
        Ok(())
    }

    /// Puts the character of a code at the end, and its place for each of its bytes.
    fn push(&mut self, code: u32, at: u32) -> Result<(), ScanFault>
        requires { code < 1114112 }
        ensures ok { OnOk result (Pushes code at
            (string_bytes self.old.text) self.old.places.items (string_bytes self.new.text) self.new.places.items) }
        ensures err { IsOkUnless result ScanFault.NoMemory }
    {
        let c = character_of(code);
        self.text.push(c)?;
        push_places(&mut self.places, at, c.len_utf8())
    }

    /// Puts a unit at the end, or hands it back if it is a high surrogate, where none waits for it.
    fn start(&mut self, unit: Unit) -> Result<Option<Unit>, ScanFault>
        requires { unit.code < 1114112 }
        ensures ok { IfOk result (λ high. Starts unit self.old high self.new) }
        ensures high { IfOk result (λ high. IsHigh high) }
        ensures err { IsOkUnless result ScanFault.NoMemory }
    {
        if is_high(unit.code) {
            return Ok(Some(unit));
        }
        self.push(unit.code, unit.at)?;
        Ok(None)
    }

    /// Puts a unit at the end, with the high surrogate that waits for it, or hands it back if it is one itself.
    fn join(&mut self, waiting: Option<Unit>, unit: Unit) -> Result<Option<Unit>, ScanFault>
        requires small { unit.code < 1114112 }
        requires high { IsHigh waiting }
        ensures ok { IfOk result (λ high. Joins waiting unit self.old high self.new) }
        ensures high { IfOk result (λ high. IsHigh high) }
        ensures err { IsOkUnless result ScanFault.NoMemory }
    {
        let Some(high) = waiting else {
            return self.start(unit);
        };
        if is_low(unit.code) {
            self.push(pair_of(high.code, unit.code), high.at)?;
            return Ok(None);
        }
        self.push(high.code, high.at)?;
        self.start(unit)
    }

    /// Puts the high surrogate that waits at the end, and the place of the end.
    fn finish(&mut self, waiting: Option<Unit>, end: u32) -> Result<(), ScanFault>
        requires { IsHigh waiting }
        ensures ok { OnOk result ((units : List Input)
            → IsJoining units waiting (string_bytes self.old.text) self.old.places.items
            → end ≡ width_of units
            → IsJoined units (string_bytes self.new.text) self.new.places.items) }
        ensures err { IsOkUnless result ScanFault.NoMemory }
    {
        if let Some(high) = waiting {
            self.push(high.code, high.at)?;
        }
        self.places.push(end)?;
        Ok(())
    }
}

/// A text without its Unicode escapes (JLS 3.3), surrogate pairs joined, and U+FFFD for a surrogate that is alone.
pub fn unescape(alloc: Global, text: &str) -> Result<Unescaped, ScanFault>
    requires { length text.now < 2 ^ 32 }
    ensures ok { IfOk result (λ unescaped. IsUnescapedTo text.now (string_bytes unescaped.text) unescaped.places.items) }
    ensures err { IfErr result (λ fault. IsEscapeFault text.now fault) }
{
    let mut unescaped = Unescaped {
        text: String::with_capacity(alloc, text.len())?,
        places: Vec::with_capacity(alloc, text.len())?,
    };
    let mut cursor = Cursor::start(text);
    let mut even = true;
    let mut waiting = None;
    while let Some(c) = cursor.peek() {
        if c != '\\' && waiting.is_none() {
            unescaped.push_run(&mut cursor)?;
            even = true;
            continue;
        }
        let at = cursor.offset();
        let Some(read) = cursor.unit(c, even) else {
            return Err(ScanFault::BadEscape(at));
        };
        even = read.even;
        let code = read.code;
        waiting = unescaped.join(waiting, Unit { code, at })?;
    }
    unescaped.finish(waiting, cursor.offset())?;
    Ok(unescaped)
}
