//! Small texts, one for each part.

/// Clauses that seat five pigeons in four holes, no two in one.
pub const PIGEONS: &str =
    "p cnf 20 45\n1 2 3 4 0\n5 6 7 8 0\n9 10 11 12 0\n13 14 15 16 0\n17 18 19 20 0\n-1 -5 0\n-1 -9 0\n-1 -13 0\n-1 -17 0\n-5 -9 0\n-5 -13 0\n-5 -17 0\n-9 -13 0\n-9 -17 0\n-13 -17 0\n-2 -6 0\n-2 -10 0\n-2 -14 0\n-2 -18 0\n-6 -10 0\n-6 -14 0\n-6 -18 0\n-10 -14 0\n-10 -18 0\n-14 -18 0\n-3 -7 0\n-3 -11 0\n-3 -15 0\n-3 -19 0\n-7 -11 0\n-7 -15 0\n-7 -19 0\n-11 -15 0\n-11 -19 0\n-15 -19 0\n-4 -8 0\n-4 -12 0\n-4 -16 0\n-4 -20 0\n-8 -12 0\n-8 -16 0\n-8 -20 0\n-12 -16 0\n-12 -20 0\n-16 -20 0\n";

/// A netlist of two inputs, an output and two gates between.
pub const CHAIN: &str =
    "module chain (a, b, y); input a, b; output y; and (v, a, b); not (w, v); buf (y, w); endmodule";

/// Clauses without a model, and a proof of that.
pub const STEPS: (&str, &str) = (
    "p cnf 2 4\n1 2 0\n-1 2 0\n1 -2 0\n-2 0\n",
    "1 1 2 0\n5 2 4 0\n",
);
