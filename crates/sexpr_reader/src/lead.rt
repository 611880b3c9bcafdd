ghost use Rattle.std.specs.Prelude.{◌≡◌};
ghost use Rattle.sexpr_reader.specs.Lead.{byte_lead, lead_of, is_digit};
ghost use Rattle.sexpr_reader.specs.Bytes.{has, is_letter, is_name_sign};

use crate::group::Group;

/// What begins at a place in a source.
#[derive(Clone, Copy)]
pub enum Lead {
    End,
    WhiteSpace,
    Comment,
    Open(Group),
    Close(Group),
    Quote,
    Colon,
    /// A digit, or a sign and a digit.
    Number,
    /// Any other byte.
    Other,
}

/// Bytes that a run is made of.
#[derive(Clone, Copy)]
pub enum Class {
    WhiteSpace,
    /// All bytes but the line feed.
    Line,
    /// The bytes of a word: of a number, a keyword or a symbol.
    Word,
    /// The bytes of a name.
    Name,
    /// The bytes that may stand after the first byte of a name.
    Later,
}

impl Class {
    pub fn has(self, byte: u8) -> bool
        ensures { result ≡ has self byte }
    {
        match self {
            Class::WhiteSpace => is_white_space(byte),
            Class::Line => byte != b'\n',
            Class::Word => is_word_byte(byte),
            Class::Name => is_name_byte(byte),
            Class::Later => is_name_byte(byte) || byte == b'\'',
        }
    }
}

fn is_white_space(byte: u8) -> bool
    ensures { result ≡ has Class.WhiteSpace byte }
{
    matches!(byte, 9..=13 | b' ' | b',')
}

fn is_word_byte(byte: u8) -> bool
    ensures { result ≡ has Class.Word byte }
{
    matches!(byte_lead(byte), Lead::Colon | Lead::Number | Lead::Other)
}

fn is_name_byte(byte: u8) -> bool
    ensures { result ≡ has Class.Name byte }
{
    is_letter(byte) || is_digit(byte) || is_name_sign(byte)
}

fn is_letter(byte: u8) -> bool
    ensures { result ≡ is_letter byte }
{
    matches!(byte, b'A'..=b'Z' | b'a'..=b'z')
}

fn is_digit(byte: u8) -> bool
    ensures { result ≡ is_digit byte }
{
    matches!(byte, b'0'..=b'9')
}

fn is_name_sign(byte: u8) -> bool
    ensures { result ≡ is_name_sign byte }
{
    matches!(
        byte,
        b'*' | b'+' | b'!' | b'-' | b'_' | b'?' | b'<' | b'>' | b'='
    )
}

/// What a byte begins by itself.
fn byte_lead(byte: u8) -> Lead
    ensures { result ≡ byte_lead byte }
{
    match byte {
        9..=13 | b' ' | b',' => Lead::WhiteSpace,
        b';' => Lead::Comment,
        b'(' => Lead::Open(Group::List),
        b'[' => Lead::Open(Group::Vector),
        b'{' => Lead::Open(Group::Map),
        b'@' => Lead::Open(Group::At),
        b')' => Lead::Close(Group::List),
        b']' => Lead::Close(Group::Vector),
        b'}' => Lead::Close(Group::Map),
        b'"' => Lead::Quote,
        b':' => Lead::Colon,
        b'0'..=b'9' => Lead::Number,
        _ => Lead::Other,
    }
}

/// What the text begins.
pub fn lead_of(text: &[u8]) -> Lead
    ensures { result ≡ lead_of text.now }
{
    match text {
        [] => Lead::End,
        [b'+' | b'-', b'0'..=b'9', ..] => Lead::Number,
        [first, ..] => byte_lead(*first),
    }
}
