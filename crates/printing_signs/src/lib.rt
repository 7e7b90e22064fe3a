// The small texts of a formula, in both dialects: a number with its sign, and what is said of a form.
// A number is as printing/specs/Text.antt and WordsText.antt have it, the rest as specs/Relations.antt; printing_formula calls it.
#![tactic(auto)]

ghost use Rattle.std.specs.Prelude.{◌≡◌, ◌+◌, ◌≤◌};
ghost use Rattle.number_bytes.specs.Ranges.{Held};
ghost use Rattle.printing.specs.Text.{term_text};
ghost use Rattle.printing.specs.Translation.{integer};
ghost use Rattle.printing.specs.WordsText.{sign_text};
ghost use Rattle.printing_text.specs.PutsText.{text_limit, Puts};
ghost use Rattle.printing_signs.specs.Relations.{relation_text, said_text};

use printing_text::{Text, magnitude};

// 5, (- 5)
pub fn put_number(text: &mut Text<'_>, z: i64)
    requires end_bound { text.old.end + 15 ≤ text_limit }
    requires held { Held 4 z }
    ensures same_output { text.new.out.ghost_name ≡ text.old.out.ghost_name }
    ensures puts { Puts text.old text.new (term_text (integer z)) 14 }
{
    let n = magnitude(z);
    if z < 0 {
        text.put(b"(- ");
        text.put_decimal(n);
        text.put(b")");
        return;
    }
    text.put_decimal(n);
}

// In words, at the front of a sum, and between summands: `front` says where the number stands.
pub fn put_sign(text: &mut Text<'_>, z: i64, front: bool)
    requires { text.old.end + 3 ≤ text_limit }
    ensures same_output { text.new.out.ghost_name ≡ text.old.out.ghost_name }
    ensures puts { Puts text.old text.new (sign_text front z) 3 }
{
    match (front, z < 0) {
        (true, true) => text.put(b"-"),
        (true, false) => {}
        (false, true) => text.put(b" - "),
        (false, false) => text.put(b" + "),
    }
}

pub fn put_relation(text: &mut Text<'_>, equality: bool)
    requires { text.old.end + 4 ≤ text_limit }
    ensures same_output { text.new.out.ghost_name ≡ text.old.out.ghost_name }
    ensures puts { Puts text.old text.new (relation_text equality) 4 }
{
    if equality {
        text.put(b"(= ");
        return;
    }
    text.put(b"(<= ");
}

pub fn put_said(text: &mut Text<'_>, equality: bool)
    requires { text.old.end + 5 ≤ text_limit }
    ensures same_output { text.new.out.ghost_name ≡ text.old.out.ghost_name }
    ensures puts { Puts text.old text.new (said_text equality) 5 }
{
    if equality {
        text.put(b" = 0");
        return;
    }
    text.put(b" <= 0");
}
