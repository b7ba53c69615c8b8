//! The reserved words.

ghost use Rattle.std.specs.Prelude.{◌≡◌};
ghost use Rattle.std.specs.List.{list_any};
ghost use Rattle.std.specs.Str.{bytes_eq};
ghost use Rattle.eco_tokens.specs.Words.{is_reserved};

/// The reserved words that begin with the text's first letter.
#[tactic(auto, unfolding(crate::specs::Words::reserved, crate::specs::Words::is_reserved))]
fn words_like(text: &[u8]) -> &'static [&'static [u8]]
    ensures { list_any (λ word. bytes_eq word.now text.now) result.now ≡ is_reserved text.now }
{
    match text {
        [b'a', ..] => &[b"always", b"and", b"assign", b"automatic"],
        [b'b', ..] => &[b"begin", b"buf", b"bufif0", b"bufif1"],
        [b'c', ..] => &[b"case", b"casex", b"casez", b"cmos"],
        [b'd', ..] => &[b"deassign", b"default", b"defparam", b"disable"],
        [b'e', ..] => &[
            b"edge",
            b"else",
            b"end",
            b"endcase",
            b"endfunction",
            b"endgenerate",
            b"endmodule",
            b"endprimitive",
            b"endspecify",
            b"endtable",
            b"endtask",
            b"event",
        ],
        [b'f', ..] => &[b"for", b"force", b"forever", b"fork", b"function"],
        [b'g', ..] => &[b"generate", b"genvar"],
        [b'i', ..] => &[b"if", b"initial", b"inout", b"input", b"integer"],
        [b'j', ..] => &[b"join"],
        [b'l', ..] => &[b"localparam"],
        [b'm', ..] => &[b"macromodule", b"module"],
        [b'n', ..] => &[
            b"nand", b"negedge", b"nmos", b"nor", b"not", b"notif0", b"notif1",
        ],
        [b'o', ..] => &[b"or", b"output"],
        [b'p', ..] => &[
            b"parameter",
            b"pmos",
            b"posedge",
            b"primitive",
            b"pulldown",
            b"pullup",
        ],
        [b'r', ..] => &[b"real", b"realtime", b"reg", b"release", b"repeat"],
        [b's', ..] => &[
            b"scalared",
            b"signed",
            b"specify",
            b"specparam",
            b"strong0",
            b"strong1",
            b"supply0",
            b"supply1",
        ],
        [b't', ..] => &[
            b"table", b"task", b"time", b"tran", b"tri", b"tri0", b"tri1", b"triand", b"trior",
            b"trireg",
        ],
        [b'v', ..] => &[b"vectored"],
        [b'w', ..] => &[
            b"wait", b"wand", b"weak0", b"weak1", b"while", b"wire", b"wor",
        ],
        [b'x', ..] => &[b"xnor", b"xor"],
        _ => &[],
    }
}

/// Whether the text is one of these words.
fn is_among(words: &[&[u8]], text: &[u8]) -> bool
    ensures { result ≡ list_any (λ word. bytes_eq word.now text.now) words.now }
{
    words.iter().any(|word| *word == text)
}

/// Whether the text is a reserved word, and so no name (IEEE 1364-2005, annex B).
pub(crate) fn is_reserved(text: &[u8]) -> bool
    ensures { result ≡ is_reserved text.now }
{
    is_among(words_like(text), text)
}
