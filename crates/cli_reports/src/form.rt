// What the bytes of a refused line or name say about how the text was written: its encoding, its separators and its line ends.
ghost use Rattle.std.specs.Prelude.{◌≡◌};
ghost use Rattle.cli_reports.specs.Form.{has_gzip_mark, has_utf_8_mark, has_utf_16_mark, has_byte, line_form, script_line_form, name_form};

// The first bytes of a file that gzip has compressed (RFC 1952, 2.3.1, "ID1" and "ID2").
const GZIP_MARK: [u8; 2] = [0x1f, 0x8b];

const UTF_8_MARK: [u8; 3] = [0xef, 0xbb, 0xbf];

const UTF_16_LITTLE_ENDIAN_MARK: [u8; 2] = [0xff, 0xfe];

const UTF_16_BIG_ENDIAN_MARK: [u8; 2] = [0xfe, 0xff];

fn has_gzip_mark(bytes: &[u8]) -> bool
    ensures { result ≡ has_gzip_mark bytes.now }
{
    bytes.starts_with(&GZIP_MARK)
}

fn has_utf_8_mark(bytes: &[u8]) -> bool
    ensures { result ≡ has_utf_8_mark bytes.now }
{
    bytes.starts_with(&UTF_8_MARK)
}

fn has_utf_16_mark(bytes: &[u8]) -> bool
    ensures { result ≡ has_utf_16_mark bytes.now }
{
    bytes.starts_with(&UTF_16_LITTLE_ENDIAN_MARK) || bytes.starts_with(&UTF_16_BIG_ENDIAN_MARK)
}

fn has_byte(byte: u8, bytes: &[u8]) -> bool
    ensures { result ≡ has_byte byte bytes.now }
{
    bytes.contains(&byte)
}

/// Returns a sentence about the first bytes of a line, with a space after it, or nothing if they are neither a byte order mark nor those of gzip.
pub(crate) fn line_form(line: &[u8]) -> &'static str
    ensures { result.now ≡ line_form line.now }
{
    if has_gzip_mark(line) {
        "The line begins as a file that gzip has compressed: `gzip -dc` gives its text. "
    } else if has_utf_8_mark(line) {
        "The line begins with a byte order mark. "
    } else if has_utf_16_mark(line) {
        "The line begins with the byte order mark of UTF-16, but must be UTF-8. "
    } else {
        ""
    }
}

/// Returns a sentence about the first or last bytes of a line of a script, or nothing.
pub(crate) fn script_line_form(line: &[u8]) -> &'static str
    ensures { result.now ≡ script_line_form line.now }
{
    if line.ends_with(b"\r") {
        "The line ends with a carriage return: `tr -d '\\r'` removes those of the script. "
    } else {
        line_form(line)
    }
}

/// Returns a sentence about a name in a header where another one is expected, or nothing.
pub(crate) fn name_form(name: &[u8]) -> &'static str
    ensures { result.now ≡ name_form name.now }
{
    if has_gzip_mark(name) {
        "A name begins as a file that gzip has compressed: `gzip -dc` gives its text. "
    } else if has_utf_16_mark(name) {
        "A name begins with the byte order mark of UTF-16, but must be UTF-8. "
    } else if has_byte(b'\t', name) {
        "The header has a tab, but only commas separate names. "
    } else if has_byte(b';', name) {
        "The header has a semicolon, but only commas separate names. "
    } else {
        ""
    }
}
