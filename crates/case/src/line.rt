// A line of the cases, taken a byte at a time: decimal numbers parted by one space. Takes any bytes; what no number can have makes the
// line malformed, and it stays so.
ghost use Rattle.std.specs.Prelude.{◌≡◌};
ghost use Rattle.case.specs.Lines.{with_next, with_digit, read_byte, started, begun, counted, line_ended, line_taken, next_case};

// The number under way: no digit yet, the number so far, or malformed. (Three states, each with a name; an Option within a Result would
// be no plainer.)
#[derive(Clone, Copy)]
pub enum Reading {
    Nothing,
    Number(u64),
    Malformed,
}

// Room for the numbers of a line, and how many of them are whole. What stands behind those is 0 or of lines before. (An array with a count: there
// is no heap here.)
#[derive(Clone, Copy)]
pub struct Numbers {
    pub items: [u64; 256],
    pub count: usize,
}

// The case's number, the numbers that are whole, and the one under way.
#[derive(Clone, Copy)]
pub struct Line {
    pub case: u64,
    pub numbers: Numbers,
    pub reading: Reading,
}

// The number with one digit more, where that is below 2^64.
fn with_next(n: u64, d: u64) -> Option<u64>
    ensures { result ≡ with_next n d }
{
    n.checked_mul(10)?.checked_add(d)
}

// The number under way with one digit more.
fn with_digit(r: Reading, d: u64) -> Reading
    ensures { result ≡ with_digit r d }
{
    match r {
        Reading::Nothing => Reading::Number(d),
        Reading::Number(n) => with_next(n, d).map_or(Reading::Malformed, Reading::Number),
        Reading::Malformed => Reading::Malformed,
    }
}

// A byte that ends no number: a digit, or what no number has.
fn read_byte(r: Reading, b: u8) -> Reading
    ensures { result ≡ read_byte r b }
{
    if !b.is_ascii_digit() {
        return Reading::Malformed;
    }
    with_digit(r, (b - b'0') as u64)
}

impl Line {
    // A line of which nothing is read.
    pub fn new(case: u64) -> Self
        ensures { result ≡ begun case }
    {
        Line {
            case,
            numbers: Numbers {
                items: [0; 256],
                count: 0,
            },
            reading: Reading::Nothing,
        }
    }

    // The next line, of which nothing is read.
    pub fn start_next(&mut self)
        ensures { self.new ≡ started (next_case self.old.case) self.old.numbers.items }
    {
        self.case = next(self.case);
        self.numbers.count = 0;
        self.reading = Reading::Nothing;
    }

    // A number put behind the others, where it has room.
    fn add(&mut self, n: u64)
        ensures { self.new ≡ counted self.old n }
    {
        let at = self.numbers.count;
        if at >= self.numbers.items.len() {
            self.reading = Reading::Malformed;
            return;
        }
        self.numbers.items[at] = n;
        self.numbers.count += 1;
        self.reading = Reading::Nothing;
    }

    // The end of a number. With no number there the line is malformed.
    pub fn put(&mut self)
        ensures { self.new ≡ line_ended self.old }
    {
        match self.reading {
            Reading::Nothing => self.reading = Reading::Malformed,
            Reading::Number(n) => self.add(n),
            Reading::Malformed => {}
        }
    }

    // One byte of a line, not its end.
    pub fn take(&mut self, b: u8)
        ensures { self.new ≡ line_taken self.old b }
    {
        if b == b' ' {
            self.put();
        } else {
            self.reading = read_byte(self.reading, b);
        }
    }
}

// The number of the next case. No run comes to the last.
pub fn next(case: u64) -> u64
    ensures { result ≡ next_case case }
{
    case.saturating_add(1)
}
