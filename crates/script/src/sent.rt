// A weighing by an indicator as a text.
use crate::sample::Fields;
use crate::texts::{float, parted, spelled};
use paper::{Cell, Indicated, Message, Refusal};
use record::Record;

// The most bytes of a message in a case.
const MESSAGE: usize = 16;

// An ordinary weighing's fields but for the readings, and its messages: with each cell's zero taken off they are 300 kg, 30 kg,
// 300.001 kg and 30.01 kg.
const FIELDS: &[u8] = b"m1 a10000 b500000 n100000";

const P: &str = "014072e80000000000 407f40 4004";

const Q: &str = "01403f400000000000 4059 3ff4";

const SECOND_P: &str = "014072e804189374bc 407f40 4004";

const SECOND_Q: &str = "01403f428f5c28f5c3 4059 3ff4";

// A word of a text, or the ordinary one where it is a dot or there is none.
fn word<'a>(own: &'a str, ordinary: &'a str) -> &'a str {
    match own {
        "" | "." => ordinary,
        _ => own,
    }
}

// A message: its bytes, and the patterns of its cell's rating and zero, each a word of a text.
fn message<'a>(text: &str, ordinary: &str, room: &'a mut [u8; MESSAGE]) -> Message<'a> {
    let (bytes, cell) = parted(text, ' ');
    let (rated, zero) = parted(cell, ' ');
    let (usual_bytes, usual_cell) = parted(ordinary, ' ');
    let (usual_rated, usual_zero) = parted(usual_cell, ' ');
    Message {
        bytes: spelled(word(bytes, usual_bytes).as_bytes(), room),
        cell: Cell {
            rated: float(word(rated, usual_rated)),
            zero: float(word(zero, usual_zero)),
        },
    }
}

// The call by a text: the fields that are not ordinary, and four messages, each behind a /.
pub fn weigh_indicated(log: &mut Record, text: &str) -> Result<(), Refusal> {
    let (other, messages) = parted(text, '/');
    let (p, rest) = parted(messages, '/');
    let (q, rest) = parted(rest, '/');
    let (p2, q2) = parted(rest, '/');
    let by = Fields {
        ordinary: FIELDS,
        other: other.as_bytes(),
    };
    log.weigh_indicated(Indicated {
        m: by.number(b'm'),
        p: message(p, P, &mut [0; MESSAGE]),
        q: message(q, Q, &mut [0; MESSAGE]),
        p2: message(p2, SECOND_P, &mut [0; MESSAGE]),
        q2: message(q2, SECOND_Q, &mut [0; MESSAGE]),
        a: by.signed(b'a'),
        b: by.number(b'b'),
        n: by.number(b'n'),
    })
}
