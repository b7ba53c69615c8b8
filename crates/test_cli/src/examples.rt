//! The examples of `examples/`, each with its answer: `tools/examples.py --write` puts them here from their files.

use crate::cases::{Case, Left, try_case};
use std::test::Fail;

const EXAMPLES: [Case<'static>; 5] = [
    Case {
        name: "arbiter",
        implementation: "// An arbiter of four requests, of which the first one has precedence. A masked request doesn't count. The gate of the\n// last grant is cut loose.\nmodule arbiter (req0, req1, req2, req3, mask0, mask1, mask2, mask3, enable, grant0, grant1, grant2, grant3);\n  input req0, req1, req2, req3, mask0, mask1, mask2, mask3, enable;\n  output grant0, grant1, grant2, grant3;\n  wire q0, q1, q2, q3, busy1, busy2;\n\n  not (u0, mask0), (u1, mask1), (u2, mask2), (u3, mask3);\n  and (q0, req0, u0), (q1, req1, u1), (q2, req2, u2), (q3, req3, u3);\n  or  (busy1, q0, q1), (busy2, q0, q1, q2);\n  not (free0, q0), (free1, busy1);\n  buf (grant0, q0);\n  and (grant1, q1, free0), (grant2, q2, free1);\n  buf (grant3, t_0); // was: and (grant3, q3, free2), with not (free2, busy2)\nendmodule\n",
        specification: "// The last request is granted only while it is enabled.\nmodule arbiter_enabled (req0, req1, req2, req3, mask0, mask1, mask2, mask3, enable, grant0, grant1, grant2, grant3);\n  input req0, req1, req2, req3, mask0, mask1, mask2, mask3, enable;\n  output grant0, grant1, grant2, grant3;\n\n  not (u0, mask0), (u1, mask1), (u2, mask2), (u3, mask3);\n  and (q0, req0, u0), (q1, req1, u1), (q2, req2, u2), (q3, req3, u3);\n  not (n0, q0), (n1, q1), (n2, q2);\n  buf (grant0, q0);\n  and (grant1, q1, n0), (grant2, q2, n0, n1), (grant3, q3, n0, n1, n2, enable);\nendmodule\n",
        weights: "req0 6\nreq1 6\nreq2 6\nreq3 6\nmask0 6\nmask1 6\nmask2 6\nmask3 6\nenable 2\nq3 1\nbusy1 3\nbusy2 1\ngrant2 4\n",
        care: "",
        status: 0,
        printed: &[
            "patched\ncost 4\ngates 2\ntarget t_0 3\nbase enable 2\nforce1 000100001\nforce0 000100000\nbase q3 1\nforce1 000100001\nforce0 000000001\nbase busy2 1\nforce1 000100001\nforce0 001100001\n",
        ],
        patch: Left::Text(
            "module patch (t_0, enable, q3, busy2);\noutput t_0;\ninput enable;\ninput q3;\ninput busy2;\nwire eco_1;\nnot (eco_1, busy2);\nand (t_0, enable, q3, eco_1);\nendmodule\n",
        ),
        out: Left::Text(
            "module arbiter (req0, req1, req2, req3, mask0, mask1, mask2, mask3, enable, grant0, grant1, grant2, grant3);\ninput req0;\ninput req1;\ninput req2;\ninput req3;\ninput mask0;\ninput mask1;\ninput mask2;\ninput mask3;\ninput enable;\noutput grant0;\noutput grant1;\noutput grant2;\noutput grant3;\nwire q0;\nwire q1;\nwire q2;\nwire q3;\nwire busy1;\nwire busy2;\nwire u0;\nwire u1;\nwire u2;\nwire u3;\nwire free0;\nwire free1;\nwire t_0;\nwire eco_1;\nnot (u0, mask0);\nnot (u1, mask1);\nnot (u2, mask2);\nnot (u3, mask3);\nand (q0, req0, u0);\nand (q1, req1, u1);\nand (q2, req2, u2);\nand (q3, req3, u3);\nor (busy1, q0, q1);\nor (busy2, q0, q1, q2);\nnot (free0, q0);\nnot (free1, busy1);\nbuf (grant0, q0);\nand (grant1, q1, free0);\nand (grant2, q2, free1);\nbuf (grant3, t_0);\nnot (eco_1, busy2);\nand (t_0, enable, q3, eco_1);\nendmodule\n",
        ),
    },
    Case {
        name: "comparator",
        implementation: "// A comparator of two numbers of two bits. `gt` is the complement of `lt`, so it is 1 where the numbers are equal; the gate of\n// `lt` is cut loose.\nmodule comparator (a1, a0, b1, b0, lt, gt);\n  input a1, a0, b1, b0;\n  output lt, gt;\n  wire n1, n0, high, same, low, below;\n\n  not  (n1, a1), (n0, a0);\n  and  (high, n1, b1), (low, n0, b0), (below, same, low);\n  xnor (same, a1, b1);\n  buf  (lt, t_0); // was: or (lt, high, below)\n  not  (gt, lt);\nendmodule\n",
        specification: "// Neither flag is to be 1 where the numbers are equal. One cut net can't bring that about: `gt` reads `lt`.\nmodule comparator (a1, a0, b1, b0, lt, gt);\n  input a1, a0, b1, b0;\n  output lt, gt;\n\n  not  (n1, a1), (n0, a0), (m1, b1), (m0, b0);\n  xnor (same, a1, b1);\n  and  (high, n1, b1), (low, same, n0, b0);\n  or   (lt, high, low);\n  and  (above, a1, m1), (over, same, a0, m0);\n  or   (gt, above, over);\nendmodule\n",
        weights: "a1 2\na0 2\nb1 2\nb0 2\nhigh 1\nbelow 1\n",
        care: "",
        status: 1,
        printed: &["unrectifiable\ninput 0000\n"],
        patch: Left::Nothing,
        out: Left::Nothing,
    },
    Case {
        name: "majority",
        implementation: "// A majority of three inputs that was built as a parity by mistake: the gate that drove `vote` is cut loose.\nmodule majority (a, b, c, vote, agree);\n  input a, b, c;\n  output vote, agree;\n  wire ab, bc;\n\n  and g_ab (ab, a, b);\n  and g_bc (bc, b, c);\n  and g_all (agree, ab, bc);\n  buf g_vote (vote, t_0); // was: xor (vote, a, b, c)\nendmodule\n",
        specification: "/* what the outputs are to be */\nmodule majority_golden (a, b, c, vote, agree);\n  input a, b, c;\n  output vote, agree;\n\n  and (ab, a, b), (ac, a, c), (bc, b, c);\n  or  (vote, ab, ac, bc);\n  and (agree, a, b, c);\nendmodule\n",
        weights: "a 3\nb 3\nc 3\nab 1\nbc 1\n",
        care: "",
        status: 0,
        printed: &[
            "patched\ncost 8\ngates 2\ntarget t_0 4\nbase c 3\nforce1 101\nforce0 100\nbase a 3\nforce1 101\nforce0 001\nbase bc 1\nforce1 011\nforce0 001\nbase ab 1\nforce1 110\nforce0 100\n",
        ],
        patch: Left::Text(
            "module patch (t_0, c, a, bc, ab);\noutput t_0;\ninput c;\ninput a;\ninput bc;\ninput ab;\nwire eco_1;\nand (eco_1, c, a);\nor (t_0, bc, ab, eco_1);\nendmodule\n",
        ),
        out: Left::Text(
            "module majority (a, b, c, vote, agree);\ninput a;\ninput b;\ninput c;\noutput vote;\noutput agree;\nwire ab;\nwire bc;\nwire t_0;\nwire eco_1;\nand (ab, a, b);\nand (bc, b, c);\nand (agree, ab, bc);\nbuf (vote, t_0);\nand (eco_1, c, a);\nor (t_0, bc, ab, eco_1);\nendmodule\n",
        ),
    },
    Case {
        name: "overflow",
        implementation: "// A four-bit adder. Its flag `v` was built as the carry out of the last place: the net is cut loose.\nmodule adder (a3, a2, a1, a0, b3, b2, b1, b0, cin, s3, s2, s1, s0, v);\n  input a3, a2, a1, a0, b3, b2, b1, b0, cin;\n  output s3, s2, s1, s0, v;\n  wire p0, p1, p2, p3, c1, c2, c3, c4;\n\n  xor p_0 (p0, a0, b0), p_1 (p1, a1, b1), p_2 (p2, a2, b2), p_3 (p3, a3, b3);\n  xor s_0 (s0, p0, cin), s_1 (s1, p1, c1), s_2 (s2, p2, c2), s_3 (s3, p3, c3);\n  and (g0, a0, b0), (g1, a1, b1), (g2, a2, b2), (g3, a3, b3);\n  and (h0, p0, cin), (h1, p1, c1), (h2, p2, c2), (h3, p3, c3);\n  or  (c1, g0, h0), (c2, g1, h1), (c3, g2, h2), (c4, g3, h3);\n  buf flag (v, t_0); // was: buf flag (v, c4)\nendmodule\n",
        specification: "// The same adder for signed numbers: `v` is 1 where the sum doesn't fit, that is where the operands have the same sign\n// and the sum has the other one.\nmodule adder_signed (a3, a2, a1, a0, b3, b2, b1, b0, cin, s3, s2, s1, s0, v);\n  input a3, a2, a1, a0, b3, b2, b1, b0, cin;\n  output s3, s2, s1, s0, v;\n\n  xor (s0, a0, b0, cin), (s1, a1, b1, c1), (s2, a2, b2, c2), (s3, a3, b3, c3);\n  and (ab0, a0, b0), (ac0, a0, cin), (bc0, b0, cin);\n  and (ab1, a1, b1), (ac1, a1, c1),  (bc1, b1, c1);\n  and (ab2, a2, b2), (ac2, a2, c2),  (bc2, b2, c2);\n  or  (c1, ab0, ac0, bc0), (c2, ab1, ac1, bc1), (c3, ab2, ac2, bc2);\n  not (na, a3), (nb, b3), (ns, s3);\n  and (low, na, nb, s3), (high, a3, b3, ns);\n  or  (v, low, high);\nendmodule\n",
        weights: "a3 9\na2 9\na1 9\na0 9\nb3 9\nb2 9\nb1 9\nb0 9\ncin 9\nc3 2\nc4 2\np3 4\ns3 5\n",
        care: "",
        status: 0,
        printed: &[
            "patched\ncost 4\ngates 1\ntarget t_0 2\nbase c4 2\nforce1 000001111\nforce0 000011111\nbase c3 2\nforce1 000001111\nforce0 000000000\n",
        ],
        patch: Left::Text(
            "module patch (t_0, c4, c3);\noutput t_0;\ninput c4;\ninput c3;\nxor (t_0, c4, c3);\nendmodule\n",
        ),
        out: Left::Text(
            "module adder (a3, a2, a1, a0, b3, b2, b1, b0, cin, s3, s2, s1, s0, v);\ninput a3;\ninput a2;\ninput a1;\ninput a0;\ninput b3;\ninput b2;\ninput b1;\ninput b0;\ninput cin;\noutput s3;\noutput s2;\noutput s1;\noutput s0;\noutput v;\nwire p0;\nwire p1;\nwire p2;\nwire p3;\nwire c1;\nwire c2;\nwire c3;\nwire c4;\nwire g0;\nwire g1;\nwire g2;\nwire g3;\nwire h0;\nwire h1;\nwire h2;\nwire h3;\nwire t_0;\nxor (p0, a0, b0);\nxor (p1, a1, b1);\nxor (p2, a2, b2);\nxor (p3, a3, b3);\nxor (s0, p0, cin);\nxor (s1, p1, c1);\nxor (s2, p2, c2);\nxor (s3, p3, c3);\nand (g0, a0, b0);\nand (g1, a1, b1);\nand (g2, a2, b2);\nand (g3, a3, b3);\nand (h0, p0, cin);\nand (h1, p1, c1);\nand (h2, p2, c2);\nand (h3, p3, c3);\nor (c1, g0, h0);\nor (c2, g1, h1);\nor (c3, g2, h2);\nor (c4, g3, h3);\nbuf (v, t_0);\nxor (t_0, c4, c3);\nendmodule\n",
        ),
    },
    Case {
        name: "segments",
        implementation: "// A seven-segment decoder for the digits 0 to 9. Six was drawn without its head (segment a) and nine without its foot\n// (segment d): the gates of both segments are cut loose.\nmodule segments (d3, d2, d1, d0, sa, sb, sc, sd, se, sf, sg);\n  input d3, d2, d1, d0;\n  output sa, sb, sc, sd, se, sf, sg;\n  wire n3, n2, n1, n0, is0, is1, is2, is3, is4, is5, is6, is7, is8, is9;\n\n  not (n3, d3), (n2, d2), (n1, d1), (n0, d0);\n  and (is0, n3, n2, n1, n0), (is1, n3, n2, n1, d0), (is2, n3, n2, d1, n0), (is3, n3, n2, d1, d0);\n  and (is4, n3, d2, n1, n0), (is5, n3, d2, n1, d0), (is6, n3, d2, d1, n0), (is7, n3, d2, d1, d0);\n  and (is8, d3, n2, n1, n0), (is9, d3, n2, n1, d0);\n  buf (sa, t_0); // was: or (sa, is0, is2, is3, is5, is7, is8, is9)\n  or  (sb, is0, is1, is2, is3, is4, is7, is8, is9);\n  or  (sc, is0, is1, is3, is4, is5, is6, is7, is8, is9);\n  buf (sd, t_1); // was: or (sd, is0, is2, is3, is5, is6, is8)\n  or  (se, is0, is2, is6, is8);\n  or  (sf, is0, is4, is5, is6, is8, is9);\n  or  (sg, is2, is3, is4, is5, is6, is8, is9);\nendmodule\n",
        specification: "// The same decoder: six has its head, and nine its foot.\nmodule segments (d3, d2, d1, d0, sa, sb, sc, sd, se, sf, sg);\n  input d3, d2, d1, d0;\n  output sa, sb, sc, sd, se, sf, sg;\n\n  not (n3, d3), (n2, d2), (n1, d1), (n0, d0);\n  and (is0, n3, n2, n1, n0), (is1, n3, n2, n1, d0), (is2, n3, n2, d1, n0), (is3, n3, n2, d1, d0);\n  and (is4, n3, d2, n1, n0), (is5, n3, d2, n1, d0), (is6, n3, d2, d1, n0), (is7, n3, d2, d1, d0);\n  and (is8, d3, n2, n1, n0), (is9, d3, n2, n1, d0);\n  or  (sa, is0, is2, is3, is5, is6, is7, is8, is9);\n  or  (sb, is0, is1, is2, is3, is4, is7, is8, is9);\n  or  (sc, is0, is1, is3, is4, is5, is6, is7, is8, is9);\n  or  (sd, is0, is2, is3, is5, is6, is8, is9);\n  or  (se, is0, is2, is6, is8);\n  or  (sf, is0, is4, is5, is6, is8, is9);\n  or  (sg, is2, is3, is4, is5, is6, is8, is9);\nendmodule\n",
        weights: "d3 9\nd2 9\nd1 9\nd0 9\nis0 2\nis1 2\nis2 2\nis3 2\nis4 2\nis5 2\nis6 2\nis7 2\nis8 2\nis9 2\nsb 3\nsc 3\nse 3\nsf 3\nsg 3\n",
        care: "// The inputs that come: the digits 0 to 9. What is drawn for 10 to 15 doesn't matter.\nmodule digits (d3, d2, d1, d0, comes);\n  input d3, d2, d1, d0;\n  output comes;\n\n  or   (big, d2, d1);\n  nand (comes, d3, big);\nendmodule\n",
        status: 0,
        printed: &[
            "patched\ncost 6\ngates 2\ntarget t_0 2\nbase is4 2\nforce1 0101\nforce0 0100\nbase is1 2\nforce1 0010\nforce0 0001\ntarget t_1 1\nbase is7 2\nforce1 1000\nforce0 0111\n",
        ],
        patch: Left::Text(
            "module patch (t_0, t_1, is4, is1, is7);\noutput t_0;\noutput t_1;\ninput is4;\ninput is1;\ninput is7;\nnor (t_0, is4, is1);\nnor (t_1, is4, is1, is7);\nendmodule\n",
        ),
        out: Left::Text(
            "module segments (d3, d2, d1, d0, sa, sb, sc, sd, se, sf, sg);\ninput d3;\ninput d2;\ninput d1;\ninput d0;\noutput sa;\noutput sb;\noutput sc;\noutput sd;\noutput se;\noutput sf;\noutput sg;\nwire n3;\nwire n2;\nwire n1;\nwire n0;\nwire is0;\nwire is1;\nwire is2;\nwire is3;\nwire is4;\nwire is5;\nwire is6;\nwire is7;\nwire is8;\nwire is9;\nwire t_0;\nwire t_1;\nnot (n3, d3);\nnot (n2, d2);\nnot (n1, d1);\nnot (n0, d0);\nand (is0, n3, n2, n1, n0);\nand (is1, n3, n2, n1, d0);\nand (is2, n3, n2, d1, n0);\nand (is3, n3, n2, d1, d0);\nand (is4, n3, d2, n1, n0);\nand (is5, n3, d2, n1, d0);\nand (is6, n3, d2, d1, n0);\nand (is7, n3, d2, d1, d0);\nand (is8, d3, n2, n1, n0);\nand (is9, d3, n2, n1, d0);\nbuf (sa, t_0);\nor (sb, is0, is1, is2, is3, is4, is7, is8, is9);\nor (sc, is0, is1, is3, is4, is5, is6, is7, is8, is9);\nbuf (sd, t_1);\nor (se, is0, is2, is6, is8);\nor (sf, is0, is4, is5, is6, is8, is9);\nor (sg, is2, is3, is4, is5, is6, is8, is9);\nnor (t_0, is4, is1);\nnor (t_1, is4, is1, is7);\nendmodule\n",
        ),
    },
];

#[test]
fn each_example_has_the_answer_beside_it(rt: HostRuntime) -> Result<(), Fail> {
    for example in &EXAMPLES {
        try_case(&rt, example)?;
    }
    Ok(())
}
