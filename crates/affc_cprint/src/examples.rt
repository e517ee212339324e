//! Printed texts: each function here is a statement, proved by computation.

ghost use Rattle.std.specs.Prelude.{◌≡◌, ◌++◌, codes};
ghost use Rattle.affc_ast.specs.Examples.{copying};
ghost use Rattle.affc_grammar.specs.Grammar.{text_symbols};
ghost use Rattle.affc_grammar.specs.Printed.{printed};
ghost use Rattle.affc_grammar.specs.Verdict.{around, line, with_prelude, program_of, verdict};
ghost use Rattle.affc_lex.specs.Pieces.{prelude};
ghost use Rattle.affc_cprint.specs.Layout.{printed_text};

/// Whole texts.
pub fn layout()
    ensures copy_loop { printed_text copying
        ≡ codes "#include <stdint.h>\n#pragma affc param N 1 4\nvoid f(int64_t N, const uint64_t in[N], uint64_t out[N]) {\n  for (int64_t i = 0; i < N; i++) {\n    out[i] = in[i];\n  }\n}\n" }
    ensures expressions { printed_text (program_of (verdict (around (codes "uint64_t t [ 3 ] ; if ( N < 2 && ( N - ( N - 1 ) ) >= - ( - N ) ) t [ N - 1 ] += ~ ( in [ 3 * ( - N ) ] + 1ULL ) << 3 ;"))))
        ≡ codes "#include <stdint.h>\n#pragma affc param N 1 4\nvoid f(int64_t N, const uint64_t in[N], uint64_t out[N]) {\n  uint64_t t[3];\n  if (N < 2 && N - (N - 1) >= -(-N)) {\n    t[N - 1] += ~(in[3 * (-N)] + 1ULL) << 3;\n  }\n}\n" }
    ensures parentheses { printed_text (program_of (verdict (around (codes "for ( int64_t i = 0 ; i < N ; i ++ ) { out [ i ] = in [ i ] - ( in [ 0 ] - 1ULL ) ; out [ i ] = ( in [ i ] + 1ULL ) << 3 ; out [ i ] = ~ ( in [ i ] * 2ULL ) ; out [ - ( i + 1 ) ] = in [ - ( - i ) ] ; out [ 3 * ( - ( i ) ) ] = ( uint64_t ) ( - i ) ; }"))))
        ≡ codes "#include <stdint.h>\n#pragma affc param N 1 4\nvoid f(int64_t N, const uint64_t in[N], uint64_t out[N]) {\n  for (int64_t i = 0; i < N; i++) {\n    out[i] = in[i] - (in[0] - 1ULL);\n    out[i] = in[i] + 1ULL << 3;\n    out[i] = ~(in[i] * 2ULL);\n    out[-(i + 1)] = in[-(-i)];\n    out[3 * (-i)] = (uint64_t)(-i);\n  }\n}\n" }
    ensures parentheses_again { verdict (text_symbols (printed (program_of (verdict (around (codes "for ( int64_t i = 0 ; i < N ; i ++ ) { out [ i ] = in [ i ] - ( in [ 0 ] - 1ULL ) ; out [ i ] = ( in [ i ] + 1ULL ) << 3 ; out [ i ] = ~ ( in [ i ] * 2ULL ) ; out [ - ( i + 1 ) ] = in [ - ( - i ) ] ; out [ 3 * ( - ( i ) ) ] = ( uint64_t ) ( - i ) ; }"))))))
        ≡ verdict (around (codes "for ( int64_t i = 0 ; i < N ; i ++ ) { out [ i ] = in [ i ] - ( in [ 0 ] - 1ULL ) ; out [ i ] = ( in [ i ] + 1ULL ) << 3 ; out [ i ] = ~ ( in [ i ] * 2ULL ) ; out [ - ( i + 1 ) ] = in [ - ( - i ) ] ; out [ 3 * ( - ( i ) ) ] = ( uint64_t ) ( - i ) ; }")) }
    ensures negations { printed_text (program_of (verdict (around (codes "out [ N - ( - N ) ] = in [ ( - N ) * 3 ] ; out [ - N + 3 ] = in [ 3 + ( - N ) ] ;"))))
        ≡ codes "#include <stdint.h>\n#pragma affc param N 1 4\nvoid f(int64_t N, const uint64_t in[N], uint64_t out[N]) {\n  out[N - (-N)] = in[(-N) * 3];\n  out[-N + 3] = in[3 + (-N)];\n}\n" }
    ensures conditions { printed_text (program_of (verdict (around (codes "if ( ( N < 2 || ( N > 3 && N % 2 == 0 ) ) && ( ( N != 1 ) && ( N < 3 || ( N - 1 ) % 3 != 0 ) ) ) out [ 0 ] = in [ 0 ] ; else if ( N > 1 ) out [ 0 ] = 1ULL ; else { out [ 1 ] = 2ULL ; }"))))
        ≡ codes "#include <stdint.h>\n#pragma affc param N 1 4\nvoid f(int64_t N, const uint64_t in[N], uint64_t out[N]) {\n  if ((N < 2 || N > 3 && N % 2 == 0) && N != 1 && (N < 3 || (N - 1) % 3 != 0)) {\n    out[0] = in[0];\n  } else {\n    if (N > 1) {\n      out[0] = 1ULL;\n    } else {\n      out[1] = 2ULL;\n    }\n  }\n}\n" }
    ensures context { printed_text (program_of (verdict (line (codes "# include <stdint.h> \n # pragma affc context N < 9 \n # pragma affc param N - 2 9 \n # pragma affc context ( N > 1 ) \n void f ( int64_t N , uint64_t t [ N + 2 ] ) { uint64_t u , v [ 3 ] [ N ] ; }"))))
        ≡ codes "#include <stdint.h>\n#pragma affc param N -2 9\n#pragma affc context N < 9 && N > 1\nvoid f(int64_t N, uint64_t t[N + 2]) {\n  uint64_t u;\n  uint64_t v[3][N];\n}\n" }
    ensures blocks { printed_text (program_of (verdict (with_prelude (codes "{ const int64_t a = affc_min ( N , 1 ) ; out [ affc_floord ( a , 2 ) ] = ( uint64_t ) ( - a ) ; }"))))
        ≡ codes "#include <stdint.h>\n#pragma affc param N 1 4\n" ++ prelude ++ codes "void f(int64_t N, const uint64_t in[N], uint64_t out[N]) {\n  {\n    const int64_t a = affc_min(N, 1);\n    out[affc_floord(a, 2)] = (uint64_t)(-a);\n  }\n}\n" }
{}
