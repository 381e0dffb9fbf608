// The decimal text of a word, as ASCII bytes.

#![tactic(auto)]

ghost use Rattle.std.specs.Prelude.{◌≡◌, ◌++◌, ◌+◌, ◌≤◌, length, drop};
ghost use Rattle.std.proofs.lemmas.List.Edits.{sets};
ghost use Rattle.text.specs.Decimal.{digits_of, decimal_of};

// Stores the digits of n from the place `at` on, and answers the place after them.
fn put(n: u32, at: usize, out: &mut [u8]) -> usize
    requires { at + length (digits_of 10 n) ≤ length out.old }
    ensures { (result ≡ at + length (digits_of 10 n)) × (out.new ≡ sets out.old at (digits_of 10 n)) }
{
    let last = if n < 10 { at } else { put(n / 10, at, out) };
    out[last] = b'0' + (n % 10) as u8;
    last + 1
}

// Stores the text of a word, and answers its length; the places after it are untouched.
pub fn decimal(word: i32, out: &mut [u8; 12]) -> usize
    ensures { (result ≡ length (decimal_of word)) × (out.new ≡ decimal_of word ++ drop (length (decimal_of word)) out.old) }
{
    if 0 <= word {
        put(word as u32, 0, out)
    } else {
        out[0] = b'-';
        // For the least word -word does not fit; -1 - word always does.
        put((-1 - word) as u32 + 1, 1, out)
    }
}
