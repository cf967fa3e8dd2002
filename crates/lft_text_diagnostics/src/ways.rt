//! What to write in place of what the language has and `lftrace` leaves out.

use crate::before::Before;
use crate::candidate::Candidate;
use lft_syntax::{LexFault, TokenKind};

pub(crate) const BROADCAST: &str = "Broadcasts are left out: write each connection by itself.";

pub(crate) const FEDERATION: &str = "Federation is left out. A main reactor is judged.";

pub(crate) const GENERICS: &str = "Generics are left out: write a reactor for each type.";

const PARAMETERS: &str =
    "Parameters of other types are left out: write neither them nor their values.";

pub(crate) const SPACING: &str = "Minimum spacing is left out: write the least delay alone.";

pub(crate) const CODE: &str = "Code stands between {= and =}.";

pub(crate) const NO_CODE: &str = "A reaction without code is left out: write {= =} behind it.";

pub(crate) const TYPE: &str = "Write the type as code, between {= and =}.";

pub(crate) const VALUE: &str = "Write the value as code, between {= and =}.";

/// What to write in place of a word that is left out.
pub(crate) fn of_word(word: &[u8]) -> Option<&'static str> {
    match word {
        b"import" => Some("`lftrace` reads one text: write the imported reactors into it."),
        b"extends" => Some("Inheritance is left out: write the members once more."),
        b"federated" => Some(FEDERATION),
        b"mode" | b"modal" | b"reset" => Some("Modes are left out, and nothing stands for them."),
        b"deadline" => Some("Deadlines are left out: write nothing in their place."),
        b"STP" | b"STAA" | b"tardy" => Some(
            "What handles tardiness is left out: write nothing in its place.",
        ),
        b"watchdog" => Some("Watchdogs are left out: write nothing in their place."),
        b"method" | b"const" => Some("Methods are left out: write nothing in their place."),
        b"realtime" => Some("`realtime` is left out: write `reactor` alone."),
        b"mutation" => Some("Mutations are left out, and nothing stands for them."),
        b"serializer" => Some("Serializers are left out: write nothing in their place."),
        b"interleaved" => Some(
            "Banks and multiports are left out: write each connection by itself.",
        ),
        _ => None,
    }
}

/// What to write in place of a sign that is left out.
fn of_sign(sign: u8) -> Option<&'static str> {
    match sign {
        b'[' => Some(
            "Banks and multiports are left out: write each port, instance and connection by itself.",
        ),
        b'<' => Some("Type arguments are left out: write the type as code, {= list<int> =}."),
        b'@' => Some("Attributes are left out: write nothing in their place."),
        b'~' => Some("Physical connections are left out: write a physical action of the receiver."),
        b'+' => Some(BROADCAST),
        b'\'' => Some("Remarks begin with `//` or `#`, or stand between `/*` and `*/`."),
        _ => None,
    }
}

/// What to write in place of the token, by its spelling.
pub(crate) fn of_token(kind: TokenKind, spelling: &[u8]) -> Option<&'static str> {
    match kind {
        TokenKind::Name => of_word(spelling),
        TokenKind::Symbol(sign) => of_sign(sign),
        _ => None,
    }
}

/// What helps where code could stand behind the tokens.
fn of_code(before: &Before<'_>) -> &'static str {
    if before.is(1, ":") {
        TYPE
    } else if before.is(1, "=") {
        VALUE
    } else if before.is(1, "preamble") {
        CODE
    } else {
        NO_CODE
    }
}

/// What helps where a time could stand behind the tokens, as a number or a name, and none does.
fn of_time(kind: TokenKind, before: &Before<'_>) -> Option<&'static str> {
    if !matches!(kind, TokenKind::Code | TokenKind::Text) {
        return None;
    }
    if before.is(1, "=") && !before.is(2, "time") {
        return Some(PARAMETERS);
    }
    Some("A time is a number with a unit, or a parameter.")
}

/// What helps where these could stand behind the tokens, in place of a token of this kind.
pub(crate) fn of_candidates(
    kind: TokenKind,
    before: &Before<'_>,
    found: &[Candidate],
) -> Option<&'static str> {
    if found.contains(&Candidate::TypeTime) {
        return Some(PARAMETERS);
    }
    if found.len() == 1 && found.contains(&Candidate::Symbol(b':')) {
        return Some(
            "A parameter is a name and its type, as period: time = 5 ms. Those of other types are left out.",
        );
    }
    if found.contains(&Candidate::Unit) && before.is(2, "=") && !before.is(3, "time") {
        return Some(
            "A time is a whole number with a unit. If it is no time, leave out the parameter and its value.",
        );
    }
    if found.contains(&Candidate::Unit) {
        return Some("A time is a whole number with a unit. Only 0 has none.");
    }
    if found.contains(&Candidate::Code) {
        return Some(of_code(before));
    }
    if found.contains(&Candidate::Name) && found.contains(&Candidate::Number) {
        return of_time(kind, before);
    }
    if found.contains(&Candidate::Name) && kind == TokenKind::Name {
        return Some("That is a word of the language, and no name.");
    }
    None
}

/// What helps where a text has no tokens.
pub(crate) fn of_fault(fault: LexFault, rest: &[u8]) -> Option<&'static str> {
    match fault {
        LexFault::OpenComment => Some("`*/` closes it."),
        LexFault::OpenCode => Some("`=}` closes it."),
        LexFault::OpenString => Some(
            "A quote closes it. The first `=}` ends code, also in a string or a remark of the code.",
        ),
        LexFault::NumberTooLarge(_) => Some("The greatest number is 18446744073709551615."),
        LexFault::BadChar(_) => of_bytes(rest),
        LexFault::TooLong | LexFault::NoMemory => None,
    }
}

/// What helps where no token begins with the bytes.
fn of_bytes(rest: &[u8]) -> Option<&'static str> {
    if rest.starts_with(b"\xef\xbb\xbf") {
        return Some("That is a byte order mark: save the text without it.");
    }
    if rest.starts_with(b"\xc2\xb5") || rest.starts_with(b"\xce\xbc") {
        return Some("Microseconds are written us.");
    }
    if rest.starts_with(b"\xff\xfe") || rest.starts_with(b"\xfe\xff") {
        return Some("That is UTF-16: save the text as UTF-8.");
    }
    if rest.starts_with(b"\x1f\x8b") {
        return Some("That is compressed by gzip: unpack it.");
    }
    None
}
