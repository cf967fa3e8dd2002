//! What begins at a byte of the text.

ghost use Rattle.std.specs.Prelude.{◌≡◌};
ghost use Rattle.lft_lists.specs.Bytes.{is_space, is_in_line, is_letter, is_digit, is_word, is_byte};

/// What begins with a byte, by that byte and the one after it.
#[derive(Clone, Copy, PartialEq, Eq)]
pub enum Form {
    /// One byte of white space.
    Space,
    /// A comment to the end of the line.
    LineComment,
    /// A comment between `/*` and `*/`.
    StarComment,
    Code,
    Text,
    Name,
    Digits,
    Arrow,
    Symbol,
    /// A byte that begins nothing.
    Unknown,
}

impl Form {
    ghost use Rattle.lft_syntax.specs.Lexes.{form_of};

    /// What begins with a byte and the byte after it, if there is one.
    pub fn of(byte: u8, next: Option<u8>) -> Form
        ensures { result ≡ form_of byte next }
    {
        if is_space(byte) {
            return Form::Space;
        }
        if byte == b'#' {
            return Form::LineComment;
        }
        if byte == b'/' && is_byte(b'/', next) {
            return Form::LineComment;
        }
        if byte == b'/' && is_byte(b'*', next) {
            return Form::StarComment;
        }
        if byte == b'{' && is_byte(b'=', next) {
            return Form::Code;
        }
        if byte == b'"' {
            return Form::Text;
        }
        if is_letter(byte) {
            return Form::Name;
        }
        if is_digit(byte) {
            return Form::Digits;
        }
        if byte == b'-' && is_byte(b'>', next) {
            return Form::Arrow;
        }
        // Last, since `/`, `{` and `-` are symbols too where the byte behind them begins nothing longer.
        if b'!' <= byte && byte <= b'~' {
            Form::Symbol
        } else {
            Form::Unknown
        }
    }
}

/// White space: space, tab, CR, LF and the semicolon.
pub fn is_space(byte: u8) -> bool
    ensures { result ≡ is_space byte }
{
    byte == b' ' || byte == b'\t' || byte == b'\r' || byte == b'\n' || byte == b';'
}

/// Any byte but LF.
pub fn is_in_line(byte: u8) -> bool
    ensures { result ≡ is_in_line byte }
{
    byte != b'\n'
}

/// An ASCII letter or an underscore.
pub fn is_letter(byte: u8) -> bool
    ensures { result ≡ is_letter byte }
{
    b'A' <= byte && byte <= b'Z' || b'a' <= byte && byte <= b'z' || byte == b'_'
}

/// An ASCII digit.
pub fn is_digit(byte: u8) -> bool
    ensures { result ≡ is_digit byte }
{
    b'0' <= byte && byte <= b'9'
}

/// What a name goes on with: a letter, an underscore or a digit.
pub fn is_word(byte: u8) -> bool
    ensures { result ≡ is_word byte }
{
    is_letter(byte) || is_digit(byte)
}

/// Tells whether the byte that stands there, if one does, is this byte.
pub fn is_byte(byte: u8, there: Option<u8>) -> bool
    ensures { result ≡ is_byte byte there }
{
    match there {
        Some(found) => found == byte,
        None => false,
    }
}
