// Whole files into a buffer that the caller lends, and lines of text out of one: what the programs share.
// Each count comes with what `&buf[..n]` asks (`IsPrefixLen` of specs/Counts.antt).
#![tactic(auto)]

ghost use Rattle.std.specs.Prelude.{◌≤◌, ◌<◌, min, ◌≡◌, []};
ghost use Rattle.files.specs.Counts.{IsPrefixLen};
ghost use Rattle.files.specs.Text.{Put, PutNumber, PutRefused, glyph, pair_of, hex_of};

use itoa::Buffer;
use std::fs;
use std::io::{Read, Write};
use std::rt::Files;

// Reads to the end of what source has, or until buf is full. A read that fails makes it 0, as if nothing were there.
fn read_to_end<S: Read>(source: &mut S, buf: &mut [u8]) -> usize
    ensures { IsPrefixLen result buf.new }
{
    let mut done: usize = 0;
    while done < buf.len() {
        match source.read(&mut buf[done..]) {
            Ok(0) => return done,
            Ok(n) => done += n,
            Err(_) => return 0,
        }
    }
    done
}

// The bytes at the start of buf are those of the file, as many as fit; 0 where it cannot be opened or read. (A path that is no
// text cannot.)
pub fn read<R: Files>(rt: &R, path: &[u8], buf: &mut [u8]) -> usize
    ensures { IsPrefixLen result buf.new }
{
    match str::from_utf8(path) {
        Ok(path) => read_at(rt, path, buf),
        Err(_) => 0,
    }
}

fn read_at<R: Files>(rt: &R, path: &str, buf: &mut [u8]) -> usize
    ensures { IsPrefixLen result buf.new }
{
    match fs::open(rt, path) {
        Ok(mut file) => read_to_end(&mut file, buf),
        Err(_) => 0,
    }
}

// Text is made in a buffer of the caller's: each `put_` function writes from `at` on, as far as there is room, and
// answers where the text then ends. One `write` then takes it all.

pub fn put_text(buf: &mut [u8], at: usize, text: &[u8]) -> usize
    ensures prefix_len { IsPrefixLen result buf.new }
    ensures put { Put buf.old at text.now buf.new result }
{
    let start = at.min(buf.len());
    let room = buf.len() - start;
    if room < text.len() {
        buf[start..start + room].copy_from_slice(&text[..room]);
        return start + room;
    }
    // The whole text: where its length is known the compiler makes a store of this.
    let end = start + text.len();
    buf[start..end].copy_from_slice(text);
    end
}

pub fn put_decimal(buf: &mut [u8], at: usize, n: u64) -> usize
    ensures prefix_len { IsPrefixLen result buf.new }
    ensures put_number { PutNumber buf.old at [] n buf.new result }
{
    let mut digits = Buffer::new();
    put_text(buf, at, digits.format(n).as_bytes())
}

// The capital hexadecimal digit of a number below 16.
fn digit(d: u8) -> u8
    requires { d < 16 }
    ensures { result ≡ glyph d }
{
    if d < 10 { 48 + d } else { 55 + d }
}

// Two capital hexadecimal digits for each byte.
pub fn put_hex(buf: &mut [u8], at: usize, bytes: &[u8]) -> usize
    ensures prefix_len { IsPrefixLen result buf.new }
    ensures put { Put buf.old at (hex_of bytes.now) buf.new result }
{
    let mut end = at.min(buf.len());
    for b in bytes {
        end = put_byte(buf, end, *b);
    }
    end
}

fn put_byte(buf: &mut [u8], at: usize, b: u8) -> usize
    ensures prefix_len { IsPrefixLen result buf.new }
    ensures put { Put buf.old at (pair_of b) buf.new result }
{
    let pair = [digit(b / 16), digit(b % 16)];
    put_text(buf, at, &pair)
}

// A word and a number after it.
pub fn put_number(buf: &mut [u8], at: usize, word: &[u8], n: u64) -> usize
    ensures prefix_len { IsPrefixLen result buf.new }
    ensures put_number { PutNumber buf.old at word.now n buf.new result }
{
    let end = put_text(buf, at, word);
    put_decimal(buf, end, n)
}

// The line of a refusal: its number, file and place.
pub fn put_refused(buf: &mut [u8], number: u8, file: u8, place: usize) -> usize
    ensures prefix_len { IsPrefixLen result buf.new }
    ensures put_refused { PutRefused buf.old number file place buf.new result }
{
    let mut end = put_number(buf, 0, b"refused ", number as u64);
    end = put_number(buf, end, b" file ", file as u64);
    end = put_number(buf, end, b" at ", place as u64);
    put_text(buf, end, b"\n")
}

// Writes all of text, whatever pieces one write takes; false where a write fails.
pub fn write<W: Write>(out: &mut W, text: &[u8]) -> bool {
    out.write_all(text).is_ok()
}
