// A weighing by an indicator as a line of the cases.
use nodhulika::nodhulika_weigh_indicated;
use numerals::number_of;
use script::texts::{float, parted, spelled};

// Room for a message of a case.
const MESSAGE: usize = 64;

// The words of a line that are still to be read.
#[derive(Drop)]
struct Words<'a> {
    rest: &'a str,
}

impl<'a> Words<'a> {
    fn next(&mut self) -> &'a str {
        let (word, rest) = parted(self.rest, ' ');
        self.rest = rest;
        word
    }

    fn number(&mut self) -> i64 {
        number_of(self.next().as_bytes())
    }

    fn unsigned(&mut self) -> u64 {
        self.number().cast_unsigned()
    }

    fn float(&mut self) -> f64 {
        float(self.next())
    }

    // A message's bytes.
    fn bytes<'b>(&mut self, room: &'b mut [u8; MESSAGE]) -> &'b [u8] {
        spelled(self.next().as_bytes(), room)
    }
}

// `Indicated M P RATED ZERO Q RATED ZERO P2 RATED ZERO Q2 RATED ZERO A B N`: the messages' bytes and the floats' patterns as
// digits of sixteen, a hyphen for no bytes. The arguments are evaluated in the line's order.
pub fn indicated(line: &str, record: &mut [u8]) -> u64 {
    let mut words = Words { rest: line };
    nodhulika_weigh_indicated(
        record,
        words.unsigned(),
        words.bytes(&mut [0; MESSAGE]),
        words.float(),
        words.float(),
        words.bytes(&mut [0; MESSAGE]),
        words.float(),
        words.float(),
        words.bytes(&mut [0; MESSAGE]),
        words.float(),
        words.float(),
        words.bytes(&mut [0; MESSAGE]),
        words.float(),
        words.float(),
        words.number(),
        words.unsigned(),
        words.unsigned(),
    )
}
