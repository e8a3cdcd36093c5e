// Locals by name: the last one with the name wins.
#![tactic(auto)]

ghost use Rattle.std.specs.Prelude.{◌≡◌, false, ◌<◌, ◌-◌, take, drop, length};
ghost use Rattle.text.specs.Same.{same};
ghost use Rattle.sheet.specs.Text as texts;
ghost use Rattle.lowering.specs.Slots as slots;
ghost use Rattle.expr_slots.specs.Found as answers;
ghost use Rattle.expr_slots.specs.Ends.{Ends};
ghost use Rattle.expr_slots.specs.Named as named;

use sheet::{
    bytes_at, lengths_at, local_count, local_text, locals_at, text, text_length, text_start,
};
use text::same_bytes;
use words::{byte, number, part, words_from};

// The last local with the bytes of `name`.
fn by_bytes(sheet: &[u8], name: &[u8]) -> Option<u32>
    ensures { let sheet = sheet.now in result ≡ answers.found (slots.resolve sheet name.now) }
{
    (0..local_count(sheet)).rev().find(|left| same_bytes(
        text(sheet, local_text(sheet, *left)),
        name,
    ))
}

// Whether the sheet ends with `name`, or is shorter: only such a name can be a text that is cut short.
// Kept: not std's `ends_with`, which compares as `==` does. At the lengths of names `==` takes longer than `same_bytes` (crate text).
fn ends_with(sheet: &[u8], name: &[u8]) -> bool
    ensures { result ≡ false → Ends sheet.now name.now → ⊥ }
{
    let m = sheet.len();
    let n = name.len();
    if m < n {
        return true;
    }
    same_bytes(part(sheet, m - n, n), name)
}

// Whether the `len` bytes from `at` on are those of `name`: first the first one.
fn same_part(sheet: &[u8], at: usize, len: usize, name: &[u8]) -> bool
    ensures { 0 < len → result ≡ same (take len (drop at sheet.now)) name.now }
{
    if byte(sheet, at) == byte(name, 0) {
        return same_bytes(part(sheet, at, len), name);
    }
    false
}

// The last local with the bytes of text `t`, which is `name` and does not end the sheet: texts of another length are passed over.
// What is read of each local is cut out of the sheet before the loop; where the sheet ends among the locals, it is not.
fn by_length(sheet: &[u8], t: u32, name: &[u8]) -> Option<u32>
    requires { (name.now ≡ texts.text sheet.now t) × (Ends sheet.now name.now → ⊥) }
    ensures { let sheet = sheet.now in result ≡ answers.found (slots.resolve sheet name.now) }
{
    let n = text_length(sheet, t);
    let lengths = words_from(sheet, lengths_at(sheet), sheet.len() / 4);
    let bytes = 4 * bytes_at(sheet);
    let m = local_count(sheet);
    let locals = words_from(sheet, locals_at(sheet), m as usize);
    if locals.len() < (m as usize) {
        return by_bytes(sheet, name);
    }
    (0..m).rev().find(
        |left: &u32|
            requires { (0 < n) × (left.now < length locals.now) × (bytes < 1000000000000) }
            ensures { result ≡ named.cut_by sheet.entry.now name.entry.now n locals.entry.now lengths.entry.now bytes left.now }
        {
            let k = number(locals[*left as usize]);
            match lengths.get(k as usize) {
                Some(l) => number(*l) == n
                    && same_part(
                        sheet,
                        bytes + (text_start(sheet, k) as usize),
                        n as usize,
                        name,
                    ),
                None => false,
            }
        },
    )
}

// The last local whose name has the bytes of text `t`.
pub fn resolve(sheet: &[u8], t: u32) -> Option<u32>
    ensures { let sheet = sheet.now in result ≡ answers.found (slots.resolve sheet (texts.text sheet t)) }
{
    let name = text(sheet, t);
    if ends_with(sheet, name) {
        return by_bytes(sheet, name);
    }
    by_length(sheet, t, name)
}
