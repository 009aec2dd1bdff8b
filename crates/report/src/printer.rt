// What a program prints of the messages of a recording: a line of each, the rows of its observations, or the breaks of lock in those of one TYPE.
use text::Text;

pub(crate) trait Printer {
    // Of the next message, by the position at which it stands.
    fn print(&mut self, text: &mut Text, position: u64, message: &[u8]);

    // Behind the last message, of a recording of so many bytes.
    fn end(&self, _text: &mut Text, _bytes: u64) {}
}

// The messages so far, and all bytes of them: the others are gap bytes.
#[derive(Default, Drop)]
pub(crate) struct Listing {
    messages: u64,
    given: u64,
}

impl Printer for Listing {
    fn print(&mut self, text: &mut Text, position: u64, message: &[u8]) {
        lines::put_line(text, position, message);
        self.messages = self.messages.wrapping_add(1);
        self.given = self.given.wrapping_add(message.len() as u64);
    }

    fn end(&self, text: &mut Text, bytes: u64) {
        lines::put_end(text, bytes, self.messages, bytes.wrapping_sub(self.given));
    }
}

#[derive(Drop)]
pub(crate) struct Rows;

impl Printer for Rows {
    fn print(&mut self, text: &mut Text, position: u64, message: &[u8]) {
        lines::put_rows(text, position, message);
    }
}

// A history of the TYPE, and room for the breaks of one message.
#[derive(Drop)]
pub(crate) struct Breaks {
    history: [u64; history::WORDS],
    list: [u64; history::NUMBERS],
}

impl Breaks {
    pub(crate) fn new(signal: u8) -> Breaks {
        let mut history = [0; history::WORDS];
        history::fresh(&mut history, signal);
        Breaks {
            history,
            list: [0; history::NUMBERS],
        }
    }
}

impl Printer for Breaks {
    fn print(&mut self, text: &mut Text, position: u64, message: &[u8]) {
        lines::put_breaks(text, position, message, &mut self.history, &mut self.list);
    }
}
