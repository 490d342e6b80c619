// Bytes, numbers, names and lists as the program `chartlist` prints them, put into a lent buffer from the front. What does not fit is left out.

#![tactic(auto)]

ghost use Rattle.std.specs.Prelude.{◌≡◌};
ghost use Rattle.definition.specs.Text.{decimal};
ghost use Rattle.printing.specs.Lines.{escape, escaped, spaced, line, numbers_of};
ghost use Rattle.printing.specs.Put.{Put};

pub mod page;

use definition::cells::MemberColumn;
use page::Page;
use written::{digit_count, put_digits};

impl<'a> Page<'a> {
    pub fn new(buffer: &'a mut [u8]) -> Page<'a>
        ensures same_loan { result.buffer.ghost_name ≡ buffer.entry.ghost_name }
        ensures same_bytes { result.buffer.now ≡ buffer.old }
        ensures empty { result.at ≡ 0 }
    {
        Page { buffer, at: 0 }
    }
}

impl Page<'_> {
    pub fn put_bytes(&mut self, w: &[u8])
        ensures { Put self.old self.new w.now }
    {
        let n = w.len().min(self.buffer.len() - self.at);
        self.buffer[self.at..self.at + n].copy_from_slice(&w[..n]);
        self.at += n;
    }

    fn put_number(&mut self, n: u64)
        ensures { Put self.old self.new (decimal n) }
    {
        let mut room = [0; 20];
        let digits = &mut room[..digit_count(n)];
        put_digits(digits, n);
        self.put_bytes(digits);
    }

    // By `if`, since the last arm of a `match` on a byte does not say which bytes it is not.
    fn put_escape(&mut self, b: u8)
        ensures { Put self.old self.new (escape b) }
    {
        if b == b'\n' {
            return self.put_bytes(b"\\n");
        }
        if b == b'\\' {
            return self.put_bytes(b"\\\\");
        }
        self.put_bytes(&[b]);
    }

    fn put_escaped(&mut self, w: &[u8])
        ensures { Put self.old self.new (escaped w.now) }
    {
        for b in w {
            self.put_escape(*b);
        }
    }

    pub fn put_number_line(&mut self, head: &[u8], n: u64)
        ensures { Put self.old self.new (line head.now (decimal n)) }
    {
        self.put_bytes(head);
        self.put_number(n);
        self.put_bytes(b"\n");
    }

    pub fn put_name_line(&mut self, head: &[u8], name: &[u8])
        ensures { Put self.old self.new (line head.now (escaped name.now)) }
    {
        self.put_bytes(head);
        self.put_escaped(name);
        self.put_bytes(b"\n");
    }

    // The list is a number, as the rows have it: C lends rows of numbers.
    fn put_list(&mut self, members: &[[u32; 8]], list: u32, owner: u32)
        ensures { Put self.old self.new (spaced (numbers_of list owner members.now)) }
    {
        let mut gap: &[u8] = b"";
        for row in members.iter().filter(|row| row[MemberColumn::LIST] == list
            && row[MemberColumn::OWNER] == owner)
        {
            self.put_bytes(gap);
            self.put_number(u64::from(row[MemberColumn::VALUE]));
            gap = b" ";
        }
    }

    // The list as above.
    pub fn put_list_line(&mut self, head: &[u8], members: &[[u32; 8]], list: u32, owner: u32)
        ensures { Put self.old self.new (line head.now (spaced (numbers_of list owner members.now))) }
    {
        self.put_bytes(head);
        self.put_list(members, list, owner);
        self.put_bytes(b"\n");
    }
}
