// Lines of the listing: numbers in decimal digits, fields and rows, put into a lent buffer one behind the other. Each method
// says which bytes it puts at the page's end, and how many at most. A number is put from its first digit on: what was put,
// and the digits left to put, are together those of the number.
#![tactic(auto)]

ghost use Rattle.std.specs.Prelude.{◌≡◌, [], ◌∷◌, ◌+◌, ◌*◌, ◌%◌, ◌≤◌, length};
ghost use Rattle.lines.specs.Digits.{IsLead, Put};
ghost use Rattle.lines.specs.Pages.{Puts, Room};
ghost use Rattle.lines.specs.Fields.{row_line, planned};
ghost use Rattle.rules.specs.Plans.{first_row, rows_of};
ghost use Rattle.rules.specs.Listings.{decimal, fields, row_lines, refused_line};

// The power of ten of a number's first digit. No index is counted here and in `decimal`: the power grows, and falls.
fn lead(n: u32) -> u32
    ensures { IsLead n result }
{
    let mut power = 1;
    while 10 <= n / power {
        power *= 10;
    }
    power
}

// `as` goes to fewer bits: the proof shows that the number fits, and `try_from` would bring a branch that never comes.
fn digit(x: u32) -> u8
    ensures { result ≡ 48 + x % 10 }
{
    b'0' + (x % 10) as u8
}

// A lent buffer that is filled from its front; `end` bytes are put.
#[derive(Drop)]
struct Page<'a> {
    bytes: &'a mut [u8],
    end: usize,
}

impl<'a> Page<'a> {
    fn byte(&mut self, x: u8)
        requires { Room self.old 1 }
        ensures { Puts self.old self.new (x ∷ []) 1 }
    {
        self.bytes[self.end] = x;
        self.end += 1;
    }

    fn text(&mut self, words: &[u8])
        requires { Room self.old (length words.now) }
        ensures { Puts self.old self.new words.now (length words.now) }
    {
        let end = self.end + words.len();
        self.bytes[self.end..end].copy_from_slice(words);
        self.end = end;
    }

    // A number in decimal digits.
    fn decimal(&mut self, n: u32)
        requires { Room self.old 10 }
        ensures { Puts self.old self.new (decimal n) 10 }
    {
        let mut power = lead(n);
        while 0 < power {
            self.byte(digit(n / power));
            power /= 10;
        }
    }

    // A space and a number.
    fn field(&mut self, n: u32)
        requires { Room self.old 11 }
        ensures { Puts self.old self.new (32 ∷ decimal n) 11 }
    {
        self.byte(b' ');
        self.decimal(n);
    }

    // Each number behind a space, then a line feed.
    fn fields(&mut self, numbers: &[u32])
        requires { Room self.old (11 * length numbers.now + 1) }
        ensures { Puts self.old self.new (fields numbers.now) (11 * length numbers.now + 1) }
    {
        for n in numbers {
            self.field(*n);
        }
        self.byte(b'\n');
    }

    // The line of a row, which is four numbers.
    fn row(&mut self, row: &[u32])
        requires four { length row.now ≡ 4 }
        requires room { Room self.old 44 }
        ensures { Puts self.old self.new (row_line (first_row row.now)) 44 }
    {
        self.decimal(row[0]);
        self.fields(&row[1..]);
    }

    // The lines of the first rows of a table.
    fn rows(&mut self, table: &[u32], count: usize)
        requires within { 4 * count ≤ length table.now }
        requires room { Room self.old (44 * count) }
        ensures { Puts self.old self.new (row_lines (rows_of count table.now)) (44 * count) }
    {
        for row in table.chunks_exact(4).take(count) {
            self.row(row);
        }
    }
}

// "A refusal prints one line". Numbers and no `Fault`: the contract holds of every number, and may not ask for more.
pub fn put_refusal(b: &mut [u8], refusal: u32, place: u32) -> usize
    requires { 100 ≤ length b.old }
    ensures { Put b.old 0 (refused_line refusal place) b.new result }
{
    let mut page = Page { bytes: b, end: 0 };
    page.text(b"refused");
    page.fields(&[refusal, place]);
    page.end
}

// "First line: `plan`, boards, jobs, rows, preemptions ... Then the rows." The count stands beside the table, as the planner
// gives them: a table is as long as it was lent, and C has them so.
pub fn put_plan(b: &mut [u8], first: [u32; 4], table: &[u32], count: usize) -> usize
    requires { (count ≤ 2000) × (4 * count ≤ length table.now) × (100 + 44 * count ≤ length b.old) }
    ensures { Put b.old 0 (planned first (rows_of count table.now)) b.new result }
{
    let mut page = Page { bytes: b, end: 0 };
    page.text(b"plan");
    page.fields(&first);
    page.rows(table, count);
    page.end
}
