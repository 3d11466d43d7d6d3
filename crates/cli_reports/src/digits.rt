// The hexadecimal digits of a digest.
ghost use Rattle.std.specs.Prelude.{◌≡◌};
ghost use Rattle.std.specs.Str.{IsUtf8};
ghost use Rattle.hex.specs.Hex.{encode_lower};

use std::fmt;

fn digits_of(digest: &[u8; 32]) -> [u8; 64]
    ensures { result ≡ encode_lower digest.now }
{
    let mut digits = [0; 64];
    let _fits = hex::encode_to_slice(digest, &mut digits);
    digits
}

fn text_of(digits: &[u8; 64]) -> &str
    requires { IsUtf8 digits.now }
    ensures { result.now ≡ digits.now }
{
    match str::from_utf8(digits) {
        Ok(text) => text,
        Err(_) => "",
    }
}

/// A digest, which prints as hexadecimal digits in lower case.
#[derive(Drop)]
pub(crate) struct HexDigits<'a> {
    pub(crate) digest: &'a [u8; 32],
}

impl fmt::Display for HexDigits<'_> {
    ghost use Rattle.std.specs.Prelude.{Some};

    ghost output = { λ digits. Some (encode_lower digits.digest.now) };

    fn fmt<W: fmt::Write>(&self, f: &mut fmt::Formatter<W>) -> fmt::Result {
        let digits = digits_of(self.digest);
        f.write_str(text_of(&digits))
    }
}
