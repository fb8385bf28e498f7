// A column that is lent, and what is printed of it.
use std::io;

// The longest that is lent.
const LONGEST: usize = 70;

// How many elements behind those that are lent are looked at.
const BEHIND: usize = 2;

const ROOM: usize = LONGEST + BEHIND;

// What each element is before the call.
const UNWRITTEN: i64 = -1_000_000_007;

// The first `size` elements are lent.
#[derive(Drop)]
pub struct Column {
    elements: [i64; ROOM],
    size: usize,
}

impl Column {
    // An unwritten column of such a length.
    pub fn new(size: usize) -> Column {
        Column {
            elements: [UNWRITTEN; ROOM],
            size,
        }
    }

    // What is lent.
    pub fn lent(&mut self) -> &mut [i64] {
        let size = self.size.min(LONGEST);
        &mut self.elements[..size]
    }

    // It and the elements behind it.
    pub fn printed(&self, rt: &impl Print) -> io::Result<()> {
        print!(rt; ";")?;
        for x in &self.elements[..self.size.min(LONGEST) + BEHIND] {
            match *x {
                UNWRITTEN => print!(rt; " _")?,
                x => print!(rt; " {x}")?,
            }
        }
        Ok(())
    }
}
