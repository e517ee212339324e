//! Which texts are read, and what is wrong with others, by their symbols: each function here is a statement, proved
//! by computation. A symbol has a space on either side, and symbols are numbered from 0.

ghost use Rattle.std.specs.Prelude.{◌≡◌, List, ◌∷◌, ◌++◌, [], length, true, false, codes, replicate, flat_map, Some, None, pos};
ghost use Rattle.affc_lex.specs.declared.token.Kind.TheVariants.{LineEnd};
ghost use Rattle.affc_ast.specs.Examples.{copying};
ghost use Rattle.affc_ast.specs.declared.tree.Cond.TheVariants as cond;
ghost use Rattle.affc_ast.specs.declared.tree.Ix.TheVariants as ix;
ghost use Rattle.affc_ast.specs.declared.tree.Val.TheVariants as val;
ghost use Rattle.affc_ast.specs.declared.tree.Stmt.TheVariants as stmt;
ghost use Rattle.affc_ast.specs.declared.tree.Op.TheVariants as op;
ghost use Rattle.affc_ast.specs.declared.tree.Rel.TheVariants.{Less, LessEqual, Greater, Equal, NotEqual};
ghost use Rattle.affc_grammar.specs.declared.fault.NameWhy.TheVariants.{Unknown, Twice, Reserved, Const, Kind, NoRange};
ghost use Rattle.affc_grammar.specs.declared.fault.LimitName.TheVariants.{Run, Depth, Items, Parameters, Range, Loops, Statements, Empty, Accesses, Dimensions, Comparisons, Literal, Coefficient, Pieces};
ghost use Rattle.affc_grammar.specs.Grammar.{Symbol, word, mark, prelude_symbols, text_symbols};
ghost use Rattle.affc_grammar.specs.Limits.{plain_limits, wide_limits, tokens_past, count_token, count_run, count_open, count_item};
ghost use Rattle.affc_grammar.specs.Printed.{printed};
ghost use Rattle.affc_grammar.specs.Reads.{WellNamed};
ghost use Rattle.affc_grammar.specs.Verdict.{head_lines, line, around, with_prelude, reprinted, verdict, is_read, program_of, reads, syntax, name, product, limit};

/// Which symbols are a text of the grammar, and where those of others stop.
pub fn grammar()
    ensures empty { verdict ([]) ≡ syntax 0 }
    ensures only_the_include_line { verdict (line (codes "# include <stdint.h> \n")) ≡ syntax 4 }
    ensures no_statement { is_read (verdict (around (codes ""))) ≡ true }
    ensures steps_are_by_one { verdict (around (codes "for ( int64_t i = 0 ; i < N ; i += 2 ) out [ 0 ] = 0ULL ;")) ≡ syntax 45 }
    ensures shifts_are_below_64 { verdict (around (codes "out [ 0 ] = in [ 0 ] << 64 ;")) ≡ syntax 42 }
    ensures conditions_in_parentheses { is_read (verdict (around (codes "if ( ( ( N ) < 3 && ( ( N ) + 1 == 2 ) ) ) out [ 0 ] = 0ULL ;"))) ≡ true }
    ensures expressions_in_parentheses { is_read (verdict (around (codes "if ( ( N < 3 ) && ( N + 1 ) * 2 > N ) out [ 0 ] = 0ULL ;"))) ≡ true }
    ensures an_expression_is_no_condition { verdict (around (codes "if ( ( N ) ) out [ 0 ] = 0ULL ;")) ≡ syntax 37 }
    ensures calls_want_the_prelude { verdict (around (codes "out [ affc_min ( N , 1 ) ] = 0ULL ;")) ≡ syntax 35 }
    ensures calls_before_the_function { verdict (line (codes "# include <stdint.h> \n # pragma affc param N 1 4 \n # pragma affc context affc_mod ( N , 2 ) == 0 \n void f ( int64_t N , const uint64_t in [ N ] , uint64_t out [ N ] ) { }")) ≡ syntax 25 }
    ensures calls_with_the_prelude { is_read (verdict (with_prelude (codes "out [ affc_min ( N , 1 ) ] = 0ULL ;"))) ≡ true }
    ensures calls_on_lines { is_read (verdict (line (codes "# include <stdint.h> \n # pragma affc param N 1 4 \n # pragma affc context affc_mod ( N , 2 ) == 0 \n") ++ prelude_symbols true ++ line (codes "void f ( int64_t N ) { }"))) ≡ true }
    ensures divisors_are_at_least_one { verdict (with_prelude (codes "out [ affc_floord ( N , 0 ) ] = 0ULL ;")) ≡ syntax 39 }
    ensures divisors_are_numbers { verdict (with_prelude (codes "out [ affc_ceild ( N , 2 + 1 ) ] = 0ULL ;")) ≡ syntax 40 }
    ensures steps_by_a_sum { is_read (verdict (around (codes "for ( int64_t i = 0 ; i <= 1 ; i += 1 ) out [ i ] = 0ULL ;"))) ≡ true }
    ensures loops_go_up { verdict (around (codes "for ( int64_t i = 3 ; i > 0 ; i ++ ) out [ i ] = 0ULL ;")) ≡ syntax 40 }
    ensures one_minus_before_an_atom { verdict (around (codes "out [ - - N ] = 0ULL ;")) ≡ syntax 35 }
    ensures minus_a_negation { is_read (verdict (around (codes "out [ N - - 1 ] = 0ULL ;"))) ≡ true }
    ensures arrays_have_a_dimension { verdict (line (codes "# include <stdint.h> \n void f ( uint64_t t ) { }")) ≡ syntax 9 }
    ensures shifts_of_63 { is_read (verdict (around (codes "out [ 0 ] = in [ 0 ] << 63 >> 0 ;"))) ≡ true }
    ensures divisors_of_one { is_read (verdict (with_prelude (codes "out [ affc_floord ( N , 1 ) ] = 0ULL ;"))) ≡ true }
{}

/// Where texts stop that leave something out, or have something where it may not stand.
pub fn texts_are_refused()
    ensures a_parameter_is_needed { verdict (line (codes "# include <stdint.h> \n void f ( ) { }")) ≡ syntax 7 }
    ensures no_const_numbers { verdict (line (codes "# include <stdint.h> \n void f ( const int64_t N ) { }")) ≡ syntax 8 }
    ensures declarations_stand_first { verdict (around (codes "out [ 0 ] = 0ULL ; uint64_t t ;")) ≡ syntax 40 }
    ensures locals_stand_first { verdict (with_prelude (codes "{ out [ 0 ] = 0ULL ; const int64_t a = 1 ; }")) ≡ syntax 42 }
    ensures nothing_behind_the_function { verdict (around (codes "} x")) ≡ syntax 33 }
    ensures numbers_are_no_values { verdict (around (codes "out [ 0 ] = 1 ;")) ≡ syntax 37 }
{}

/// Statements, and the words that begin them.
pub fn statements()
    ensures blocks { is_read (verdict (around (codes "{ { } out [ 0 ] = 0ULL ; }"))) ≡ true }
    ensures locals_want_the_prelude { verdict (around (codes "{ const int64_t c = 1 ; out [ c ] = 0ULL ; }")) ≡ syntax 34 }
    ensures locals_of_blocks { is_read (verdict (with_prelude (codes "{ const int64_t c = 1 ; out [ c - 1 ] = 0ULL ; }"))) ≡ true }
    ensures no_locals_of_bodies { verdict (with_prelude (codes "if ( N < 2 ) { const int64_t c = 1 ; }")) ≡ syntax 41 }
    ensures declarations { is_read (verdict (around (codes "uint64_t t [ N ] , s ; uint64_t q [ N ] [ 2 ] ; s += ~ ~ 1ULL ; q [ 0 ] [ 1 ] = t [ 0 ] ;"))) ≡ true }
    ensures casts { is_read (verdict (around (codes "out [ 0 ] = ( uint64_t ) ( N ) ;"))) ≡ true }
    ensures no_cast { verdict (around (codes "out [ 0 ] = ( uint64_t ) + 1ULL ;")) ≡ name 38 Unknown }
    ensures keywords_are_words { verdict (around (codes "while [ 0 ] = 1ULL ;")) ≡ name 32 Unknown }
    ensures else_is_a_word { verdict (around (codes "if ( N < 1 ) out [ 0 ] = 1ULL ; else = 2ULL ;")) ≡ name 45 Unknown }
    ensures else_with_subscripts { verdict (around (codes "if ( N < 1 ) out [ 0 ] = 1ULL ; else [ 0 ] [ 1 ] += 2ULL ;")) ≡ name 45 Unknown }
    ensures else_after_no_if { verdict (around (codes "else out [ 0 ] = 1ULL ;")) ≡ syntax 33 }
    ensures else_has_a_body { verdict (around (codes "if ( N < 1 ) out [ 0 ] = 1ULL ; else ;")) ≡ syntax 46 }
    ensures one_else { verdict (around (codes "if ( N < 1 ) out [ 0 ] = 1ULL ; else out [ 0 ] = 2ULL ; else out [ 0 ] = 3ULL ;")) ≡ syntax 54 }
    ensures else_ifs { is_read (verdict (around (codes "if ( N < 1 ) out [ 0 ] = 1ULL ; else if ( N < 2 ) out [ 0 ] = 2ULL ; else { out [ 0 ] = 3ULL ; }"))) ≡ true }
{}

/// Which conditions an `if` and a line may have.
pub fn conditions()
    ensures any_of_all { is_read (verdict (around (codes "if ( N < 1 || N > 2 && N != 3 ) out [ 0 ] = 0ULL ;"))) ≡ true }
    ensures any_in_parentheses { is_read (verdict (around (codes "if ( ( N < 1 || N > 2 ) && ( N ) != 3 ) out [ 0 ] = 0ULL ;"))) ≡ true }
    ensures remainders { is_read (verdict (around (codes "if ( N % 2 == 0 && 2 * N % 3 != 0 ) out [ 0 ] = 0ULL ;"))) ≡ true }
    ensures remainders_of_terms { verdict (around (codes "if ( N + 1 % 2 == 0 ) out [ 0 ] = 0ULL ;")) ≡ syntax 37 }
    ensures remainders_of_sums { is_read (verdict (around (codes "if ( ( N + 1 ) % 2 != 0 ) out [ 0 ] = 0ULL ;"))) ≡ true }
    ensures remainders_in_parentheses { is_read (verdict (around (codes "if ( ( ( N ) * 2 % 2 != 0 ) ) out [ 0 ] = 0ULL ;"))) ≡ true }
    ensures remainders_are_no_expressions { verdict (around (codes "if ( ( N % 2 ) == 0 ) out [ 0 ] = 0ULL ;")) ≡ syntax 38 }
    ensures remainders_by_at_least_one { verdict (around (codes "if ( N % 0 == 0 ) out [ 0 ] = 0ULL ;")) ≡ syntax 36 }
    ensures remainders_are_zero_or_not { verdict (around (codes "if ( N % 2 == 1 ) out [ 0 ] = 0ULL ;")) ≡ syntax 38 }
    ensures remainders_are_not_ordered { verdict (around (codes "if ( N % 2 < 0 ) out [ 0 ] = 0ULL ;")) ≡ syntax 37 }
    ensures no_any_on_lines { verdict (line (codes "# include <stdint.h> \n # pragma affc param N 1 4 \n # pragma affc context N < 1 || N > 2 \n void f ( int64_t N ) { }")) ≡ syntax 19 }
    ensures no_unequal_on_lines { verdict (line (codes "# include <stdint.h> \n # pragma affc param N 1 4 \n # pragma affc context N != 1 \n void f ( int64_t N ) { }")) ≡ syntax 17 }
    ensures no_remainders_on_lines { verdict (line (codes "# include <stdint.h> \n # pragma affc param N 1 4 \n # pragma affc context N % 2 == 0 \n void f ( int64_t N ) { }")) ≡ syntax 17 }
    ensures no_remainders_in_subscripts { verdict (around (codes "out [ N % 2 ] = 0ULL ;")) ≡ syntax 35 }
{}

/// Why a name is refused, and where.
pub fn names()
    ensures unknown { verdict (around (codes "out [ i ] = 1ULL ;")) ≡ name 34 Unknown }
    ensures iterators_end { verdict (around (codes "for ( int64_t i = 0 ; i < 1 ; i ++ ) out [ i ] = 1ULL ; out [ i ] = 1ULL ;")) ≡ name 55 Unknown }
    ensures not_in_its_own_bounds { verdict (around (codes "for ( int64_t i = i ; i < 3 ; i ++ ) out [ 0 ] = 0ULL ;")) ≡ name 37 Unknown }
    ensures unknown_second_word { verdict (around (codes "for ( int64_t i = 0 ; j < N ; i ++ ) out [ i ] = 0ULL ;")) ≡ name 39 Unknown }
    ensures other_second_word { verdict (around (codes "for ( int64_t i = 0 ; N < N ; i ++ ) out [ i ] = 0ULL ;")) ≡ name 39 Kind }
    ensures other_third_word { verdict (around (codes "for ( int64_t i = 0 ; i < N ; ++ N ) out [ i ] = 0ULL ;")) ≡ name 44 Kind }
    ensures own_extent { verdict (around (codes "uint64_t t [ t ] ;")) ≡ name 35 Unknown }
    ensures iterator_twice { verdict (around (codes "for ( int64_t N = 0 ; N < 3 ; N ++ ) out [ 0 ] = 0ULL ;")) ≡ name 35 Twice }
    ensures function_and_parameter { verdict (line (codes "# include <stdint.h> \n # pragma affc param N 1 4 \n void N ( int64_t N ) { }")) ≡ name 16 Twice }
    ensures range_twice { verdict (line (codes "# include <stdint.h> \n # pragma affc param N 1 4 \n # pragma affc param N 1 4 \n void f ( int64_t N ) { }")) ≡ name 16 Twice }
    ensures range_of_nothing { verdict (line (codes "# include <stdint.h> \n # pragma affc param N 1 4 \n void f ( uint64_t t [ 1 ] ) { }")) ≡ name 8 Unknown }
    ensures range_of_an_array { verdict (line (codes "# include <stdint.h> \n # pragma affc param N 1 4 \n void f ( uint64_t N [ 1 ] ) { }")) ≡ name 8 Kind }
    ensures no_range { verdict (line (codes "# include <stdint.h> \n void f ( int64_t N ) { }")) ≡ name 8 NoRange }
    ensures temporaries_aren_t_seen_before { verdict (line (codes "# include <stdint.h> \n # pragma affc param N 1 4 \n # pragma affc context t < N \n void f ( int64_t N ) { uint64_t t ; }")) ≡ name 16 Unknown }
    ensures latest_of_a_name { verdict (line (codes "# include <stdint.h> \n # pragma affc param N 1 4 \n void f ( int64_t N , uint64_t N [ 1 ] ) { }")) ≡ name 8 Kind }
{}

/// Which things are visible to a name: the function, what was declared before it, and nothing else.
pub fn names_are_seen()
    ensures function_on_lines { verdict (line (codes "# include <stdint.h> \n # pragma affc context f < 1 \n void f ( uint64_t t [ 1 ] ) { }")) ≡ name 8 Kind }
    ensures function_is_no_array { verdict (around (codes "f = 1ULL ;")) ≡ name 32 Kind }
    ensures function_is_no_number { verdict (around (codes "out [ f ] = 1ULL ;")) ≡ name 34 Kind }
    ensures later_parameters { verdict (line (head_lines ++ codes "void f ( uint64_t t [ N ] , int64_t N ) { }")) ≡ name 18 Unknown }
    ensures earlier_temporaries { verdict (around (codes "uint64_t s , t [ s ] ;")) ≡ name 37 Kind }
    ensures own_value { verdict (with_prelude (codes "{ const int64_t a = a ; }")) ≡ name 38 Unknown }
    ensures temporary_twice { verdict (around (codes "uint64_t in ;")) ≡ name 33 Twice }
    ensures parameter_twice { verdict (line (head_lines ++ codes "void f ( int64_t N , int64_t N ) { }")) ≡ name 19 Twice }
    ensures iterator_comes_before_low { verdict (around (codes "for ( int64_t N = x ; N < 1 ; N ++ ) out [ 0 ] = 0ULL ;")) ≡ name 35 Twice }
    ensures low_comes_before_the_second_word { verdict (around (codes "for ( int64_t i = x ; y < N ; i ++ ) out [ i ] = 0ULL ;")) ≡ name 37 Unknown }
    ensures second_word_comes_before_high { verdict (around (codes "for ( int64_t i = 0 ; y < x ; i ++ ) out [ i ] = 0ULL ;")) ≡ name 39 Unknown }
    ensures high_comes_before_the_third_word { verdict (around (codes "for ( int64_t i = 0 ; i < x ; y ++ ) out [ i ] = 0ULL ;")) ≡ name 41 Unknown }
{}

/// Names of other kinds, inputs and reserved names.
pub fn kinds()
    ensures stores_to_inputs { verdict (around (codes "in [ N ] = 1ULL ;")) ≡ name 32 Const }
    ensures numbers_of_subscripts { verdict (around (codes "uint64_t t [ 1 ] [ 2 ] ; t [ 0 ] = 0ULL ;")) ≡ name 41 Kind }
    ensures subscripts_of_loads { verdict (around (codes "out [ 0 ] = in ;")) ≡ name 37 Kind }
    ensures an_array_is_no_number { verdict (around (codes "out [ in ] = 1ULL ;")) ≡ name 34 Kind }
    ensures a_number_is_no_array { verdict (around (codes "out [ 0 ] = N ;")) ≡ name 37 Kind }
    ensures keywords { verdict (around (codes "uint64_t while ;")) ≡ name 33 Reserved }
    ensures names_of_the_prelude { verdict (around (codes "uint64_t affc_x ;")) ≡ name 33 Reserved }
    ensures names_of_types { verdict (around (codes "uint64_t a_t ;")) ≡ name 33 Reserved }
    ensures main { verdict (line (codes "# include <stdint.h> \n void main ( uint64_t t [ 1 ] ) { }")) ≡ name 5 Reserved }
    ensures reserved_on_a_line { verdict (line (codes "# include <stdint.h> \n # pragma affc param while 1 4 \n void f ( int64_t while ) { }")) ≡ name 8 Reserved }
    ensures time_iterators { is_read (verdict (with_prelude (codes "for ( int64_t affc_t0 = 0 ; affc_t0 < 1 ; affc_t0 ++ ) out [ affc_t0 ] = 0ULL ;"))) ≡ true }
    ensures no_time_locals { verdict (with_prelude (codes "{ const int64_t affc_t0 = 0 ; }")) ≡ name 36 Reserved }
    ensures no_time_temporaries { verdict (with_prelude (codes "uint64_t affc_t0 ;")) ≡ name 34 Reserved }
    ensures no_time_parameters { verdict (line (codes "# include <stdint.h> \n # pragma affc param affc_t0 1 4 \n") ++ prelude_symbols true ++ line (codes "void f ( int64_t affc_t0 ) { }")) ≡ name 8 Reserved }
    ensures no_time_iterators_without_the_prelude { verdict (around (codes "for ( int64_t affc_t0 = 0 ; affc_t0 < 1 ; affc_t0 ++ ) out [ affc_t0 ] = 0ULL ;")) ≡ name 35 Reserved }
    ensures const_before_kind { verdict (around (codes "in = 1ULL ;")) ≡ name 32 Const }
    ensures twice_before_reserved { verdict (with_prelude (codes "for ( int64_t affc_t0 = 0 ; affc_t0 < 1 ; affc_t0 ++ ) { { const int64_t affc_t0 = 1 ; } }")) ≡ name 51 Twice }
    ensures other_time_iterators { verdict (with_prelude (codes "for ( int64_t affc_t0 = 0 ; affc_t0 < 1 ; affc_t0 ++ ) for ( int64_t affc_t1 = 0 ; affc_t0 < 1 ; affc_t1 ++ ) out [ 0 ] = 0ULL ;")) ≡ name 54 Kind }
    ensures time_names_have_no_leading_zero { verdict (with_prelude (codes "for ( int64_t affc_t00 = 0 ; affc_t00 < 1 ; affc_t00 ++ ) out [ 0 ] = 0ULL ;")) ≡ name 36 Reserved }
{}

/// Where products of names are found, and the first of several.
pub fn products_are_found()
    ensures in_lows { verdict (around (codes "for ( int64_t i = N * N ; i < 1 ; i ++ ) out [ 0 ] = 0ULL ;")) ≡ product 38 }
    ensures in_highs { verdict (around (codes "for ( int64_t i = 0 ; i < N * N ; i ++ ) out [ 0 ] = 0ULL ;")) ≡ product 42 }
    ensures in_left_sides { verdict (around (codes "if ( N * N < 1 ) out [ 0 ] = 0ULL ;")) ≡ product 35 }
    ensures in_right_sides { verdict (around (codes "if ( 1 < N * N ) out [ 0 ] = 0ULL ;")) ≡ product 37 }
    ensures in_loads { verdict (around (codes "out [ 0 ] = 1ULL + ~ in [ N * N ] << 1 ;")) ≡ product 43 }
    ensures in_casts { verdict (around (codes "out [ 0 ] = ( uint64_t ) ( N * N ) ;")) ≡ product 42 }
    ensures in_temporaries { verdict (around (codes "uint64_t t [ N * N ] ;")) ≡ product 36 }
    ensures in_parameters { verdict (line (head_lines ++ codes "void f ( int64_t N , uint64_t t [ N * N ] ) { }")) ≡ product 22 }
    ensures in_contexts { verdict (line (head_lines ++ codes "# pragma affc context N * N < 9 \n void f ( int64_t N ) { }")) ≡ product 17 }
    ensures in_locals { verdict (with_prelude (codes "{ const int64_t a = N * N ; }")) ≡ product 39 }
    ensures in_bodies { verdict (around (codes "if ( N < 2 ) { { out [ N * N ] = 0ULL ; } }")) ≡ product 43 }
    ensures in_parts { verdict (around (codes "out [ 1 - ( 2 + - ( N * N ) ) ] = 0ULL ;")) ≡ product 42 }
    ensures first_of_two { verdict (around (codes "out [ N * N * N ] = 0ULL ;")) ≡ product 35 }
    ensures in_quotients { verdict (with_prelude (codes "out [ affc_floord ( N * N , 2 ) ] = 0ULL ;")) ≡ product 38 }
{}

/// Products, literals and coefficients of affine texts.
pub fn forms()
    ensures product_of_names { verdict (around (codes "out [ N * N ] = 1ULL ;")) ≡ product 35 }
    ensures product_of_a_name_that_cancels { verdict (around (codes "out [ ( N - N ) * N ] = 1ULL ;")) ≡ product 39 }
    ensures names_come_before_products { verdict (around (codes "out [ N * N ] = 1ULL ; x = 1ULL ;")) ≡ name 41 Unknown }
    ensures products_come_before_limits { verdict (around (codes "out [ 16777217 ] = 1ULL ; out [ N * N ] = 1ULL ;")) ≡ product 42 }
    ensures literal { is_read (verdict (around (codes "out [ 16777216 ] = 1ULL ;"))) ≡ true }
    ensures large_literal { verdict (around (codes "out [ 16777217 ] = 1ULL ;")) ≡ limit 34 Literal }
    ensures literal_in_parentheses { verdict (around (codes "out [ ( 16777217 ) ] = 1ULL ;")) ≡ limit 34 Coefficient }
    ensures negated_literal { verdict (around (codes "out [ - 16777217 ] = 1ULL ;")) ≡ limit 34 Coefficient }
    ensures literal_in_a_sum { verdict (around (codes "out [ N + 16777217 ] = 1ULL ;")) ≡ limit 34 Coefficient }
    ensures coefficient { is_read (verdict (around (codes "out [ 65536 * N ] = 1ULL ;"))) ≡ true }
    ensures large_coefficient { verdict (around (codes "out [ 65537 * N ] = 1ULL ;")) ≡ limit 34 Coefficient }
    ensures large_part { verdict (around (codes "out [ N - ( 65536 * N + N ) ] = 1ULL ;")) ≡ limit 36 Coefficient }
    ensures literals_with_the_prelude { is_read (verdict (with_prelude (codes "out [ 16777217 * N ] = 1ULL ;"))) ≡ true }
    ensures product_in_a_call { verdict (with_prelude (codes "out [ affc_max ( N * N , 1 ) ] = 0ULL ;")) ≡ product 38 }
    ensures greatest_divisor { is_read (verdict (with_prelude (codes "out [ affc_floord ( N , 4611686018427387904 ) ] = 0ULL ;"))) ≡ true }
    ensures large_divisor { verdict (with_prelude (codes "out [ affc_floord ( N , 4611686018427387905 ) ] = 0ULL ;")) ≡ limit 39 Literal }
{}

/// Limits at their edges.
pub fn limits()
    ensures fifth_parameter { verdict (line (codes "# include <stdint.h> \n # pragma affc param A 1 4 \n # pragma affc param B 1 4 \n # pragma affc param C 1 4 \n # pragma affc param D 1 4 \n # pragma affc param E 1 4 \n void f ( int64_t A , int64_t B , int64_t C , int64_t D , int64_t E ) { }")) ≡ limit 60 Parameters }
    ensures empty_range { verdict (line (codes "# include <stdint.h> \n # pragma affc param N 4 3 \n void f ( int64_t N ) { }")) ≡ limit 9 Range }
    ensures widest_range { is_read (verdict (line (codes "# include <stdint.h> \n # pragma affc param N - 16777216 16777216 \n void f ( int64_t N ) { }"))) ≡ true }
    ensures range_too_wide { verdict (line (codes "# include <stdint.h> \n # pragma affc param N - 16777217 0 \n void f ( int64_t N ) { }")) ≡ limit 9 Range }
    ensures seventh_loop { verdict (around (codes "for ( int64_t i0 = 0 ; i0 < 1 ; i0 ++ ) for ( int64_t i1 = 0 ; i1 < 1 ; i1 ++ ) for ( int64_t i2 = 0 ; i2 < 1 ; i2 ++ ) for ( int64_t i3 = 0 ; i3 < 1 ; i3 ++ ) for ( int64_t i4 = 0 ; i4 < 1 ; i4 ++ ) for ( int64_t i5 = 0 ; i5 < 1 ; i5 ++ ) for ( int64_t i6 = 0 ; i6 < 1 ; i6 ++ ) out [ 0 ] = 0ULL ;")) ≡ limit 116 Loops }
    ensures empty_loop { verdict (around (codes "for ( int64_t i = 0 ; i < N ; i ++ ) { }")) ≡ limit 32 Empty }
    ensures empty_loops_with_the_prelude { is_read (verdict (with_prelude (codes "for ( int64_t i = 0 ; i < N ; i ++ ) { }"))) ≡ true }
    ensures accesses { is_read (verdict (around (codes "out [ 0 ] = in [ 0 ] + in [ 0 ] + in [ 0 ] + in [ 0 ] + in [ 0 ] + in [ 0 ] + in [ 0 ] + in [ 0 ] + in [ 0 ] + in [ 0 ] + in [ 0 ] + in [ 0 ] + in [ 0 ] + in [ 0 ] + in [ 0 ] ;"))) ≡ true }
    ensures too_many_accesses { verdict (around (codes "out [ 0 ] += in [ 0 ] + in [ 0 ] + in [ 0 ] + in [ 0 ] + in [ 0 ] + in [ 0 ] + in [ 0 ] + in [ 0 ] + in [ 0 ] + in [ 0 ] + in [ 0 ] + in [ 0 ] + in [ 0 ] + in [ 0 ] + in [ 0 ] ;")) ≡ limit 32 Accesses }
    ensures four_dimensions { is_read (verdict (around (codes "uint64_t t [ 1 ] [ 1 ] [ 1 ] [ 1 ] ;"))) ≡ true }
    ensures five_dimensions { verdict (around (codes "uint64_t t [ 1 ] [ 1 ] [ 1 ] [ 1 ] [ 1 ] ;")) ≡ limit 33 Dimensions }
    ensures comparisons_of_lines { verdict (line (codes "# include <stdint.h> \n # pragma affc param N 1 4 \n # pragma affc context N < 9 && N < 9 && N < 9 && N < 9 && N < 9 && N < 9 && N < 9 && N < 9 && N < 9 && N < 9 && N < 9 && N < 9 && N < 9 && N < 9 && N < 9 && N < 9 \n # pragma affc context N < 9 \n void f ( int64_t N ) { }")) ≡ limit 83 Comparisons }
    ensures high_end_too_far { verdict (line (codes "# include <stdint.h> \n # pragma affc param N 0 16777217 \n void f ( int64_t N ) { }")) ≡ limit 9 Range }
    ensures empty_if { verdict (around (codes "if ( N < 2 ) { }")) ≡ limit 32 Empty }
    ensures statements_of_a_text { is_read (verdict (around (codes "uint64_t t ; " ++ flat_map (λ b. codes "t = 0ULL ; ") (replicate 64 true)))) ≡ true }
    ensures too_many_statements { verdict (around (codes "uint64_t t ; " ++ flat_map (λ b. codes "t = 0ULL ; ") (replicate 65 true))) ≡ limit 291 Statements }
    ensures comparisons_of_ifs { is_read (verdict (around (codes "if ( N < 9 " ++ flat_map (λ b. codes "&& N < 9 ") (replicate 15 true) ++ codes ") if ( N < 9 " ++ flat_map (λ b. codes "&& N < 9 ") (replicate 15 true) ++ codes ") out [ 0 ] = 0ULL ;"))) ≡ true }
    ensures too_many_comparisons_of_ifs { verdict (around (codes "if ( N < 9 " ++ flat_map (λ b. codes "&& N < 9 ") (replicate 16 true) ++ codes ") if ( N < 9 " ++ flat_map (λ b. codes "&& N < 9 ") (replicate 15 true) ++ codes ") out [ 0 ] = 0ULL ;")) ≡ limit 168 Comparisons }
    ensures thirteenth_loop { verdict (with_prelude (codes "for ( int64_t i0 = 0 ; i0 < 1 ; i0 ++ ) " ++ codes "for ( int64_t i1 = 0 ; i1 < 1 ; i1 ++ ) " ++ codes "for ( int64_t i2 = 0 ; i2 < 1 ; i2 ++ ) " ++ codes "for ( int64_t i3 = 0 ; i3 < 1 ; i3 ++ ) " ++ codes "for ( int64_t i4 = 0 ; i4 < 1 ; i4 ++ ) " ++ codes "for ( int64_t i5 = 0 ; i5 < 1 ; i5 ++ ) " ++ codes "for ( int64_t i6 = 0 ; i6 < 1 ; i6 ++ ) " ++ codes "for ( int64_t i7 = 0 ; i7 < 1 ; i7 ++ ) " ++ codes "for ( int64_t i8 = 0 ; i8 < 1 ; i8 ++ ) " ++ codes "for ( int64_t i9 = 0 ; i9 < 1 ; i9 ++ ) " ++ codes "for ( int64_t j0 = 0 ; j0 < 1 ; j0 ++ ) " ++ codes "for ( int64_t j1 = 0 ; j1 < 1 ; j1 ++ ) " ++ codes "for ( int64_t j2 = 0 ; j2 < 1 ; j2 ++ ) " ++ codes "out [ 0 ] = 0ULL ;")) ≡ limit 201 Loops }
{}

/// What limits count, and which of several is answered.
pub fn limits_are_counted()
    ensures differences_add_up { verdict (around (codes "out [ 65536 * N - ( - N ) ] = 0ULL ;")) ≡ limit 34 Coefficient }
    ensures literal_in_a_wide_sum { verdict (with_prelude (codes "out [ N + 4611686018427387905 ] = 0ULL ;")) ≡ limit 37 Literal }
    ensures stores_are_accesses { verdict (around (codes "out [ 0 ] = in [ 0 ] " ++ flat_map (λ b. codes "+ in [ 0 ] ") (replicate 15 true) ++ codes ";")) ≡ limit 32 Accesses }
    ensures parameters_have_dimensions { verdict (line (codes "# include <stdint.h> \n void f ( uint64_t t [ 1 ] [ 1 ] [ 1 ] [ 1 ] [ 1 ] ) { }")) ≡ limit 8 Dimensions }
    ensures least_place { verdict (around (codes "out [ 16777217 ] = 1ULL ; for ( int64_t i = 0 ; i < N ; i ++ ) { }")) ≡ limit 34 Literal }
    ensures inner_empty { verdict (around (codes "for ( int64_t i = 0 ; i < N ; i ++ ) { out [ 0 ] = 0ULL ; if ( N < 2 ) { } }")) ≡ limit 54 Empty }
    ensures left_of_a_product { verdict (around (codes "out [ N * 65537 ] = 0ULL ;")) ≡ limit 34 Coefficient }
    ensures differences_are_taken { is_read (verdict (around (codes "out [ 16777216 - 1 ] = 0ULL ;"))) ≡ true }
    ensures products_are_taken { verdict (around (codes "out [ 4096 * 4097 ] = 0ULL ;")) ≡ limit 34 Coefficient }
    ensures literal_in_a_call { verdict (with_prelude (codes "out [ affc_min ( 4611686018427387905 , N ) ] = 0ULL ;")) ≡ limit 37 Literal }
    ensures literal_behind_a_comma { verdict (with_prelude (codes "out [ affc_min ( N , 4611686018427387905 ) ] = 0ULL ;")) ≡ limit 39 Literal }
    ensures literal_in_a_quotient { verdict (with_prelude (codes "out [ affc_floord ( 4611686018427387905 , 2 ) ] = 0ULL ;")) ≡ limit 37 Literal }
    ensures loops_round_nothing { is_read (verdict (with_prelude (codes "for ( int64_t i0 = 0 ; i0 < 1 ; i0 ++ ) " ++ codes "for ( int64_t i1 = 0 ; i1 < 1 ; i1 ++ ) " ++ codes "for ( int64_t i2 = 0 ; i2 < 1 ; i2 ++ ) " ++ codes "for ( int64_t i3 = 0 ; i3 < 1 ; i3 ++ ) " ++ codes "for ( int64_t i4 = 0 ; i4 < 1 ; i4 ++ ) " ++ codes "for ( int64_t i5 = 0 ; i5 < 1 ; i5 ++ ) " ++ codes "for ( int64_t i6 = 0 ; i6 < 1 ; i6 ++ ) " ++ codes "for ( int64_t i7 = 0 ; i7 < 1 ; i7 ++ ) " ++ codes "for ( int64_t i8 = 0 ; i8 < 1 ; i8 ++ ) " ++ codes "for ( int64_t i9 = 0 ; i9 < 1 ; i9 ++ ) " ++ codes "for ( int64_t j0 = 0 ; j0 < 1 ; j0 ++ ) " ++ codes "for ( int64_t j1 = 0 ; j1 < 1 ; j1 ++ ) " ++ codes "for ( int64_t j2 = 0 ; j2 < 1 ; j2 ++ ) " ++ codes "{ }"))) ≡ true }
    ensures wide_comparisons { is_read (verdict (with_prelude (codes "if ( N < 9 " ++ flat_map (λ b. codes "&& N < 9 ") (replicate 32 true) ++ codes ") out [ 0 ] = 0ULL ;"))) ≡ true }
{}

/// Limits and rules that concern what an `if` may have.
pub fn limits_of_conditions()
    ensures sixteen_pieces { is_read (verdict (around (codes "if ( N != 1 && N != 2 && N != 3 && N != 4 ) out [ 0 ] = 0ULL ;"))) ≡ true }
    ensures more_pieces { verdict (around (codes "if ( N != 1 && N != 2 && N != 3 && N != 4 && N != 5 ) out [ 0 ] = 0ULL ;")) ≡ limit 54 Pieces }
    ensures pieces_of_the_denial { verdict (around (codes "if ( N == 1 || N == 2 || N == 3 || N == 4 || N == 5 ) out [ 0 ] = 0ULL ; else out [ 0 ] = 1ULL ;")) ≡ limit 62 Pieces }
    ensures pieces_of_nested_ifs { verdict (around (codes "if ( N != 1 && N != 2 && N != 3 && N != 4 ) if ( N != 5 ) out [ 0 ] = 0ULL ;")) ≡ limit 56 Pieces }
    ensures wide_pieces { is_read (verdict (with_prelude (codes "if ( N != 1 && N != 2 && N != 3 && N != 4 && N != 5 ) out [ 0 ] = 0ULL ;"))) ≡ true }
    ensures comparisons_behind_else { is_read (verdict (around (codes "if ( N < 9 " ++ flat_map (λ b. codes "|| N < 9 ") (replicate 31 true) ++ codes ") { } else out [ 0 ] = 0ULL ;"))) ≡ true }
    ensures too_many_comparisons_behind_else { verdict (around (codes "if ( N < 9 " ++ flat_map (λ b. codes "|| N < 9 ") (replicate 31 true) ++ codes ") { } else if ( N % 2 == 0 ) out [ 0 ] = 0ULL ;")) ≡ limit 173 Comparisons }
    ensures greatest_divisor { is_read (verdict (around (codes "if ( N % 65536 == 0 ) out [ 0 ] = 0ULL ;"))) ≡ true }
    ensures large_divisor { verdict (around (codes "if ( N % 65537 == 0 ) out [ 0 ] = 0ULL ;")) ≡ limit 36 Coefficient }
    ensures wide_divisor { is_read (verdict (with_prelude (codes "if ( N % 4611686018427387904 == 0 ) out [ 0 ] = 0ULL ;"))) ≡ true }
    ensures too_wide_divisor { verdict (with_prelude (codes "if ( N % 4611686018427387905 == 0 ) out [ 0 ] = 0ULL ;")) ≡ limit 37 Coefficient }
    ensures assignment_behind_else { is_read (verdict (around (codes "if ( N < 2 ) { } else out [ 0 ] = 0ULL ;"))) ≡ true }
    ensures empty_behind_else { verdict (around (codes "if ( N < 2 ) { } else { }")) ≡ limit 32 Empty }
    ensures values_of_remainders { verdict (around (codes "if ( N * N % 2 == 0 ) out [ 0 ] = 0ULL ;")) ≡ product 35 }
{}

/// Limits on the tokens, at their edges.
pub fn shape()
    ensures run { tokens_past count_run 2048 0 0 (replicate 2049 (word (codes "x"))) ≡ 2048 ∷ [] }
    ensures depth { tokens_past count_open 64 0 0 (replicate 65 (mark (codes "("))) ≡ 64 ∷ [] }
    ensures any_mark_closes { tokens_past count_open 0 0 0 (mark (codes ")") ∷ mark (codes "[") ∷ mark (codes ")") ∷ mark (codes "{") ∷ []) ≡ 1 ∷ 3 ∷ [] }
    ensures items { tokens_past count_item 256 0 0 (replicate 257 (word (codes "for"))) ≡ 256 ∷ [] }
    ensures runs_begin_anew { tokens_past count_run 1 0 0 (word (codes "x") ∷ mark (codes ";") ∷ word (codes "x") ∷ word (codes "x") ∷ []) ≡ 3 ∷ [] }
    ensures run_of_a_text { verdict (replicate 2049 (word (codes "x"))) ≡ limit 2048 Run }
    ensures depth_of_a_text { verdict (replicate 65 (mark (codes "("))) ≡ limit 64 Depth }
    ensures items_of_a_text { verdict (replicate 257 (word (codes "for"))) ≡ limit 256 Items }
    ensures separators { tokens_past count_run 1 0 0 (word (codes "x") ∷ mark (codes "{") ∷ word (codes "x") ∷ mark (codes "}") ∷ word (codes "x") ∷ record { kind = LineEnd; bytes = codes "\n" } ∷ word (codes "x") ∷ []) ≡ [] }
    ensures tokens { (ss : List Symbol) → length ss ≡ 65537 → tokens_past count_token plain_limits.tokens 0 0 ss ≡ 65536 ∷ [] }
    ensures tokens_with_the_prelude { (ss : List Symbol) → length ss ≡ 16777217 → tokens_past count_token wide_limits.tokens 0 0 ss ≡ 16777216 ∷ [] }
    ensures first_of_the_table { verdict (replicate 1984 (word (codes "x")) ++ replicate 65 (mark (codes "("))) ≡ limit 2048 Run }
{}

/// Which trees texts have.
pub fn trees()
    ensures calls { (program_of (verdict (with_prelude (codes "out [ affc_min ( N , 1 ) ] = ( uint64_t ) ( affc_max ( affc_mod ( N , 2 ) , affc_floord ( N , 3 ) - affc_ceild ( N , 4 ) ) ) ;")))).body ≡ stmt.Assign None (record { 0 = 1 }) (ix.Min (ix.Name (record { 0 = 0 })) (ix.Lit (pos 1)) ∷ []) (val.Cast (ix.Max (ix.Mod (ix.Name (record { 0 = 0 })) (ix.Lit (pos 2))) (ix.Sub (ix.Floord (ix.Name (record { 0 = 0 })) (pos 3)) (ix.Ceild (ix.Name (record { 0 = 0 })) (pos 4))))) ∷ [] }
    ensures operators { (program_of (verdict (around (codes "out [ 0 ] -= 1ULL | 2ULL ^ 3ULL & 4ULL + 5ULL * 6ULL - 7ULL >> 8 ;")))).body ≡ stmt.Assign (Some op.Sub) (record { 0 = 1 }) (ix.Lit (pos 0) ∷ []) (val.Bin op.Or (val.Const 1) (val.Bin op.Xor (val.Const 2) (val.Bin op.And (val.Const 3) (val.Shift false (val.Bin op.Sub (val.Bin op.Add (val.Const 4) (val.Bin op.Mul (val.Const 5) (val.Const 6))) (val.Const 7)) 8)))) ∷ [] }
    ensures numbers { (program_of (verdict (with_prelude (codes "uint64_t t ; for ( int64_t i = 0 ; i < N ; i ++ ) { { const int64_t a = i ; t = in [ a ] ; } for ( int64_t j = i ; j <= N ; j ++ ) out [ j ] = t ; }")))).body ≡ stmt.For (codes "i") (ix.Lit (pos 0)) Less (ix.Name (record { 0 = 0 })) (stmt.Block (record { name = codes "a"; value = ix.Name (record { 0 = 1 }) } ∷ []) (stmt.Assign None (record { 0 = 2 }) [] (val.Load (record { 0 = 0 }) (ix.Name (record { 0 = 2 }) ∷ [])) ∷ []) ∷ stmt.For (codes "j") (ix.Name (record { 0 = 1 })) LessEqual (ix.Name (record { 0 = 0 })) (stmt.Assign None (record { 0 = 1 }) (ix.Name (record { 0 = 2 }) ∷ []) (val.Load (record { 0 = 2 }) []) ∷ []) ∷ []) ∷ [] }
    ensures conditions { (program_of (verdict (around (codes "if ( N < 1 && ( N % 2 == 0 || N != 3 ) ) out [ 0 ] = 0ULL ; else out [ 0 ] = 1ULL ;")))).body ≡ stmt.If (cond.All (cond.Compare Less (ix.Name (record { 0 = 0 })) (ix.Lit (pos 1)) ∷ cond.Any (cond.Divides (ix.Name (record { 0 = 0 })) (pos 2) true ∷ cond.Compare NotEqual (ix.Name (record { 0 = 0 })) (ix.Lit (pos 3)) ∷ []) ∷ [])) (stmt.Assign None (record { 0 = 1 }) (ix.Lit (pos 0) ∷ []) (val.Const 0) ∷ []) (stmt.Assign None (record { 0 = 1 }) (ix.Lit (pos 0) ∷ []) (val.Const 1) ∷ []) ∷ [] }
    ensures context_in_order { (program_of (verdict (line (codes "# include <stdint.h> \n # pragma affc param N 1 4 \n # pragma affc context N < 4 && N > 1 \n # pragma affc context N == 2 \n void f ( int64_t N ) { }")))).context ≡ record { rel = Less; left = ix.Name (record { 0 = 0 }); right = ix.Lit (pos 4) } ∷ record { rel = Greater; left = ix.Name (record { 0 = 0 }); right = ix.Lit (pos 1) } ∷ record { rel = Equal; left = ix.Name (record { 0 = 0 }); right = ix.Lit (pos 2) } ∷ [] }
{}

/// Where parentheses are printed, and that what is printed reads as what was printed.
pub fn printing()
    ensures well_named { WellNamed copying }
    ensures spaced_name { WellNamed (record copying { name = codes "f g" }) → ⊥ }
    ensures copy_loop { verdict (text_symbols (printed copying)) ≡ reads copying }
    ensures sums { reprinted (around (codes "out [ N - ( N - 1 ) ] = in [ N - 1 - 1 ] ;")) ≡ around (codes "out [ N - ( N - 1 ) ] = in [ N - 1 - 1 ] ;") }
    ensures shifts { reprinted (around (codes "out [ 0 ] = ( in [ 0 ] & 1ULL ) << 3 ;")) ≡ around (codes "out [ 0 ] = ( in [ 0 ] & 1ULL ) << 3 ;") }
    ensures shifted_sums { reprinted (around (codes "out [ 0 ] = ( in [ 0 ] + 1ULL ) << 3 ;")) ≡ around (codes "out [ 0 ] = in [ 0 ] + 1ULL << 3 ;") }
    ensures complements { reprinted (around (codes "out [ 0 ] = ~ ( in [ 0 ] * 2ULL ) ;")) ≡ around (codes "out [ 0 ] = ~ ( in [ 0 ] * 2ULL ) ;") }
    ensures negations { reprinted (around (codes "out [ - ( N + 1 ) ] = in [ - ( - N ) ] ;")) ≡ around (codes "out [ - ( N + 1 ) ] = in [ - ( - N ) ] ;") }
    ensures products { reprinted (around (codes "out [ 3 * ( - N ) ] = ( uint64_t ) ( - N ) ;")) ≡ around (codes "out [ 3 * ( - N ) ] = ( uint64_t ) ( - N ) ;") }
    ensures braces { reprinted (around (codes "if ( ( ( N ) > 1 ) ) out [ 0 ] = ( ( in [ 0 ] ) ) ;")) ≡ around (codes "if ( N > 1 ) { out [ 0 ] = in [ 0 ] ; }") }
    ensures calls_under_minus { reprinted (with_prelude (codes "out [ - ( affc_min ( N , 1 ) ) ] = 0ULL ;")) ≡ with_prelude (codes "out [ - ( affc_min ( N , 1 ) ) ] = 0ULL ;") }
{}

/// How conditions and `else` are printed, and to which `if` an `else` belongs.
pub fn printing_of_conditions()
    ensures nearest_if { reprinted (around (codes "if ( N < 2 ) if ( N < 3 ) out [ 0 ] = 0ULL ; else out [ 0 ] = 1ULL ;")) ≡ around (codes "if ( N < 2 ) { if ( N < 3 ) { out [ 0 ] = 0ULL ; } else { out [ 0 ] = 1ULL ; } }") }
    ensures nearest_if_under_a_loop { reprinted (around (codes "if ( N < 2 ) for ( int64_t i = 0 ; i < 1 ; i ++ ) if ( i < 3 ) out [ 0 ] = 0ULL ; else out [ 0 ] = 1ULL ;")) ≡ around (codes "if ( N < 2 ) { for ( int64_t i = 0 ; i < 1 ; i ++ ) { if ( i < 3 ) { out [ 0 ] = 0ULL ; } else { out [ 0 ] = 1ULL ; } } }") }
    ensures outer_if { reprinted (around (codes "if ( N < 2 ) { if ( N < 3 ) out [ 0 ] = 0ULL ; } else out [ 0 ] = 1ULL ;")) ≡ around (codes "if ( N < 2 ) { if ( N < 3 ) { out [ 0 ] = 0ULL ; } } else { out [ 0 ] = 1ULL ; }") }
    ensures both_ifs { reprinted (around (codes "if ( N < 2 ) if ( N < 3 ) out [ 0 ] = 0ULL ; else out [ 0 ] = 1ULL ; else out [ 0 ] = 2ULL ;")) ≡ around (codes "if ( N < 2 ) { if ( N < 3 ) { out [ 0 ] = 0ULL ; } else { out [ 0 ] = 1ULL ; } } else { out [ 0 ] = 2ULL ; }") }
    ensures conditions { reprinted (around (codes "if ( ( N < 1 || ( N > 2 || N != 3 ) ) && ( N % 2 == 0 && N < 3 ) ) out [ 0 ] = 0ULL ;")) ≡ around (codes "if ( ( N < 1 || N > 2 || N != 3 ) && N % 2 == 0 && N < 3 ) { out [ 0 ] = 0ULL ; }") }
    ensures all_in_any { reprinted (around (codes "if ( ( N < 1 && N > 2 ) || N == 3 ) out [ 0 ] = 0ULL ;")) ≡ around (codes "if ( N < 1 && N > 2 || N == 3 ) { out [ 0 ] = 0ULL ; }") }
    ensures remainders { reprinted (around (codes "if ( ( 2 * N ) % 3 == 0 && ( N + 1 ) % 2 != 0 && ( - N ) % 4 == 0 ) out [ 0 ] = 0ULL ;")) ≡ around (codes "if ( 2 * N % 3 == 0 && ( N + 1 ) % 2 != 0 && ( - N ) % 4 == 0 ) { out [ 0 ] = 0ULL ; }") }
{}
