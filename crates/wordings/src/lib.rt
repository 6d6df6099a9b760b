// What the refusals of a source and the findings are called, mean and ask for; 160 and 161 are the findings 60 and 61 of a template.
// Written by tools/texts.py from texts.txt: change that table. Every function is safe and ends; what it puts no contract says.
#![tactic(auto)]

use buffer::Page;

// By number, as the rows of texts.txt are.
#[derive(Clone, Copy)]
struct Wording {
    number: u32,
    name: &'static str,
    what: &'static str,
    cure: &'static str,
}

const UNKNOWN: Wording = Wording {
    number: 0,
    name: "unknown",
    what: "unknown",
    cure: "unknown",
};

const WORDINGS: [Wording; 24] = [
    Wording {
        number: 1,
        name: "too-long",
        what: "the source is over 65,536 bytes",
        cure: "split it",
    },
    Wording {
        number: 2,
        name: "ill-formed",
        what: "the source is not UTF-8 from here on",
        cure: "save it as UTF-8",
    },
    Wording {
        number: 3,
        name: "no-room",
        what: "the lent memory is full",
        cure: "lend more",
    },
    Wording {
        number: 4,
        name: "no-place",
        what: "the place is past the end or inside a character",
        cure: "begin where a token ended",
    },
    Wording {
        number: 5,
        name: "no-such-form",
        what: "the number names no form of a body",
        cure: "give 1 to 5",
    },
    Wording {
        number: 6,
        name: "no-such-reading",
        what: "the number names no reading",
        cure: "give 1 or 2",
    },
    Wording {
        number: 10,
        name: "expected-escape",
        what: "the source ends after a backslash",
        cure: "finish the escape and close the literal",
    },
    Wording {
        number: 11,
        name: "unterminated-char-lit",
        what: "a control character stands in a char",
        cure: "close the char before it, or write an escape",
    },
    Wording {
        number: 12,
        name: "expected-char-close",
        what: "a char is empty",
        cure: "put a character between its quotes",
    },
    Wording {
        number: 13,
        name: "expected-char-or-label",
        what: "the source ends after a single quote",
        cure: "write a char or a label",
    },
    Wording {
        number: 14,
        name: "expected-byte-close",
        what: "the source ends in a byte",
        cure: "close it with a single quote",
    },
    Wording {
        number: 15,
        name: "unterminated-byte-lit",
        what: "a control character stands in a byte",
        cure: "close the byte before it, or write an escape",
    },
    Wording {
        number: 16,
        name: "unterminated-str-lit",
        what: "the source ends in a string",
        cure: "close it with a quote",
    },
    Wording {
        number: 17,
        name: "unterminated-byte-str-lit",
        what: "the source ends in a byte string",
        cure: "close it with a quote",
    },
    Wording {
        number: 18,
        name: "unexpected-char",
        what: "no token begins with this character",
        cure: "take it out, or put it in a string or a comment",
    },
    Wording {
        number: 19,
        name: "too-deep",
        what: "a 65th template is opened within templates",
        cure: "take one out into a variable",
    },
    Wording {
        number: 60,
        name: "comment-runs-on",
        what: "this comment does not end where it seems to",
        cure: "write `/*  */` with two blanks, or use `//`",
    },
    Wording {
        number: 61,
        name: "comment-runs-on",
        what: "this comment does not end where it seems to",
        cure: "write `/*  */` with two blanks, or use `//`",
    },
    Wording {
        number: 160,
        name: "template-runs-on",
        what: "this template does not end where it seems to",
        cure: "take the comment after the backslash out of the template",
    },
    Wording {
        number: 161,
        name: "template-runs-on",
        what: "this template does not end where it seems to",
        cure: "take the comment after the backslash out of the template",
    },
    Wording {
        number: 62,
        name: "read-as-code",
        what: "this is in force, though it looks like a comment",
        cure: "mend the comment before it that runs on",
    },
    Wording {
        number: 63,
        name: "comment-unclosed",
        what: "nothing closes this comment",
        cure: "close it with `*/`",
    },
    Wording {
        number: 64,
        name: "template-unclosed",
        what: "nothing closes this template",
        cure: "close it with a backtick",
    },
    Wording {
        number: 65,
        name: "byte-order-mark",
        what: "the file begins with a byte order mark, and rune refuses it",
        cure: "save the file as UTF-8 without a byte order mark",
    },
];

fn row_of(number: u32) -> Wording {
    WORDINGS
        .iter()
        .find(|wording| wording.number == number)
        .copied()
        .unwrap_or(UNKNOWN)
}

pub fn put_name(out: &mut Page, number: u32) {
    out.put_bytes(row_of(number).name.as_bytes());
}

pub fn put_what(out: &mut Page, number: u32) {
    out.put_bytes(row_of(number).what.as_bytes());
}

pub fn put_cure(out: &mut Page, number: u32) {
    out.put_bytes(row_of(number).cure.as_bytes());
}
