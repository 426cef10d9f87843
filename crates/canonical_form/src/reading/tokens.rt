//! Numbers, names and words, each as long as its bytes go.
ghost use Rattle.std.specs.Prelude.{◌≡◌, ◌≢◌, ℕ, ℤ, List, ◌∷◌, ◌++◌, IsTrue, IfSome, Some, None};
ghost use Rattle.std.specs.Fmt.{decimal, signed_decimal};
ghost use Rattle.prod_model.specs.Limits.{is_within, farthest_end};
ghost use Rattle.prod_model.specs.Names.{is_name_byte, same_text};
ghost use Rattle.canonical_form.specs.AnswerParts.{belongs, behind_number};
ghost use Rattle.canonical_form.specs.steps.Reading.{end_of, IsToken, Takes};

use itoa::Buffer;

/// What a token is made of.
#[derive(Clone, Copy, Debug, PartialEq, Eq)]
pub enum Reach {
    /// Digits.
    Number,
    /// Letters, digits, `_` and `-`.
    Name,
    /// The same, and `.`.
    Word,
}

impl Reach {
    /// Whether a token may have the byte.
    fn includes(self, b: u8) -> bool
        ensures { result ≡ belongs (end_of self) b }
    {
        match self {
            Reach::Number => b.is_ascii_digit(),
            Reach::Name => is_name_byte(b),
            Reach::Word => is_name_byte(b) || b == b'.',
        }
    }
}

fn is_name_byte(b: u8) -> bool
    ensures { result ≡ is_name_byte b }
{
    b.is_ascii_alphabetic() || b.is_ascii_digit() || b == b'_' || b == b'-'
}

/// The longest front of bytes that belong to a token, and the rest.
pub fn split_token(reach: Reach, bytes: &[u8]) -> (&[u8], &[u8])
    ensures { IsToken (end_of reach) bytes.now result.0.now result.1.now }
{
    let mut len = 0;
    while len < bytes.len() && reach.includes(bytes[len]) {
        len += 1;
    }
    bytes.split_at(len)
}

/// What stands behind a number, where the bytes begin with it.
pub fn behind_number(number: u32, bytes: &[u8]) -> Option<&[u8]>
    ensures found { IfSome result
        (λ rest. Takes (decimal number) behind_number bytes.now rest.now) }
    ensures none { result ≡ None
        → (rest : List ℕ) → ¬ Takes (decimal number) behind_number bytes.now rest }
{
    let (digits, rest) = split_token(Reach::Number, bytes);
    if !is_text_of(i64::from(number), digits) {
        return None;
    }
    Some(rest)
}

/// What stands behind a byte, where the bytes begin with it.
pub fn behind_byte(byte: u8, bytes: &[u8]) -> Option<&[u8]>
    ensures found { IfSome result (λ rest. bytes.now ≡ byte ∷ rest.now) }
    ensures none { result ≡ None → (rest : List ℕ) → bytes.now ≢ byte ∷ rest }
{
    let (first, rest) = bytes.split_first()?;
    if *first != byte {
        return None;
    }
    Some(rest)
}

/// What stands behind a text, where the bytes begin with it.
pub fn behind_text<'a>(text: &[u8], bytes: &'a [u8]) -> Option<&'a [u8]>
    ensures found { IfSome result (λ rest. bytes.now ≡ text.now ++ rest.now) }
    ensures none { result ≡ None → (rest : List ℕ) → bytes.now ≢ text.now ++ rest }
{
    bytes.strip_prefix(text)
}

/// What stands behind a blank, a name and a sign, where the bytes begin with them.
pub fn behind_sign<'a>(name: &[u8], sign: u8, bytes: &'a [u8]) -> Option<&'a [u8]>
    ensures found { IfSome result (λ rest. bytes.now ≡ 32 ∷ (name.now ++ (sign ∷ rest.now))) }
    ensures none { result ≡ None → (rest : List ℕ) → bytes.now ≢ 32 ∷ (name.now ++ (sign ∷ rest)) }
{
    let named = behind_byte(b' ', bytes)?;
    let signed = behind_text(name, named)?;
    behind_byte(sign, signed)
}

/// The number of which this is the text.
pub fn number_of(text: &[u8]) -> Option<i64>
    ensures found { IfSome result (λ v. text.now ≡ signed_decimal v) }
    ensures only { (v : ℤ) → IsTrue (is_within farthest_end v) → text.now ≡ signed_decimal v
        → result ≡ Some v }
{
    let number = parse(text)?;
    if !is_text_of(number, text) {
        return None;
    }
    Some(number)
}

/// The number that the text writes, also with signs and zeros that it doesn't need.
fn parse(text: &[u8]) -> Option<i64>
    ensures { (v : ℤ) → IsTrue (is_within farthest_end v) → text.now ≡ signed_decimal v
        → result ≡ Some v }
{
    let Ok(text) = std::str::from_utf8(text) else {
        return None
    };
    text.parse::<i64>().ok()
}

fn is_text_of(number: i64, text: &[u8]) -> bool
    ensures { result ≡ same_text (signed_decimal number) text.now }
{
    let mut buffer = Buffer::new();
    buffer.format(number).as_bytes() == text
}
