// What numbers and texts a message may have: the limits that definitions and code name alike.
ghost use Rattle.std.specs.Prelude.{◌≡◌};
ghost use Rattle.rt_wire.specs.Crowds.{is_mark, is_crowded, place_behind};

/// The largest tag, and the largest number of a request: above it JavaScript doesn't have each whole
/// number.
pub const MAX_NUMBER: u64 = 9007199254740991;

/// The most bytes that a reason has.
pub const MAX_REASON_BYTES: usize = 65536;

/// The most commas and opening brackets outside of texts that the text of a message has where it is taken
/// from a socket.
pub const MAX_MARKS: usize = 262144;

/// The version of the messages: what a client tells the server that it reads. Version 2 has `hello` and
/// `push`, which version 1 lacks.
pub const VERSION: u64 = 2;

// ---- whether a text holds more than a message may, found without reading it

// Where a byte of JSON stands.
#[derive(Clone, Copy)]
enum TextState {
    // Outside of all texts.
    Outside,
    // In a text.
    Inside,
    // In a text, behind a backslash.
    Escaped,
}

// Where what follows a byte stands.
fn place_behind(place: TextState, byte: u8) -> TextState
    ensures { result ≡ place_behind place byte }
{
    match place {
        TextState::Outside => {
            if byte == b'"' {
                TextState::Inside
            } else {
                TextState::Outside
            }
        }
        TextState::Inside => {
            if byte == b'"' {
                TextState::Outside
            } else if byte == b'\\' {
                TextState::Escaped
            } else {
                TextState::Inside
            }
        }
        TextState::Escaped => TextState::Inside,
    }
}

// Whether a byte is a comma or an opening bracket outside of texts: behind it a value or a member begins, or an
// empty array or object ends.
fn is_mark(place: TextState, byte: u8) -> bool
    ensures { result ≡ is_mark place byte }
{
    match place {
        TextState::Outside => byte == b',' || byte == b'[' || byte == b'{',
        TextState::Inside | TextState::Escaped => false,
    }
}

/// Whether a text has more than [`MAX_MARKS`] commas and opening brackets outside of its texts. It takes no
/// memory, and goes no further than to the first that is too many.
pub fn is_crowded(text: &str) -> bool
    ensures { result ≡ is_crowded text.now }
{
    let mut place = TextState::Outside;
    let mut left = MAX_MARKS;
    for byte in text.as_bytes() {
        if is_mark(place, *byte) {
            if left == 0 {
                return true;
            }
            left -= 1;
        }
        place = place_behind(place, *byte);
    }
    false
}
