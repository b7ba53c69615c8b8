//! Where reading a text of Verilog stops.

use eco_vread::{ReadError, TargetRule, read, tokens};
use std::alloc::Global;
use std::test::Fail;

const ADDER: &[u8] = b"// a half adder
module half (a, \\b[0] , sum, carry);
  input wire a, \\b[0] ; /* two bits */
  output sum, carry;
  wire carry, n;
  xor g0 (sum, a, \\b[0] );
  nand (n, a, \\b[0] ), (spare, a, 1'b1);
  not (carry, inverted, n);
endmodule
";

fn place_of(alloc: Global, text: &[u8]) -> Option<u64> {
    let outcome = read(alloc, text, TargetRule::Never);
    let place = match &outcome {
        Err(ReadError::Syntax { at }) => Some(*at),
        _ => None,
    };
    drop(outcome);
    place
}

/// Texts, each with the place where reading stops.
const ERRORS: [(&[u8], u64); 19] = [
    (b"", 0),
    (b" \n", 2),
    (b"module f; wire a", 16),
    (b"module f; wire a ", 17),
    (b"module f; endmodule endmodule", 20),
    (b"module f; endmodule a", 20),
    (b"module f; endmodule /*", 20),
    (b"module f; /* open ", 10),
    (b"module f wire @", 9),
    (b"module f; wire a @", 17),
    (b"module wire; endmodule", 7),
    (b"module f(a b); endmodule", 11),
    (b"module f(a,); endmodule", 11),
    (b"module f; input ; endmodule", 16),
    (b"module f; input wire wire a; endmodule", 21),
    (b"module f; assign", 16),
    (b"module f; and (1'b0, a); endmodule", 15),
    (b"module f; buf (a, 1'b0, b); endmodule", 22),
    (b"module f; and (a); endmodule", 16),
];

#[test]
fn places_of_errors(rt: HostRuntime) {
    for (text, at) in &ERRORS {
        assert_eq!(rt; place_of(rt.alloc(), text), Some(*at), "at {at}");
    }
}

#[test]
fn a_text_cut_before_its_end(rt: HostRuntime) -> Result<(), Fail> {
    let front = ADDER
        .get(..ADDER.len() - b"endmodule\n".len())
        .unwrap_or(ADDER);
    assert_eq!(rt; place_of(rt.alloc(), front), Some(front.len() as u64));
    assert_eq!(rt; place_of(rt.alloc(), ADDER), None);
    assert_eq!(rt;
        tokens(rt.alloc(), ADDER).map_or(0, |tokens| tokens.len()),
        65
    );
    Ok(())
}
