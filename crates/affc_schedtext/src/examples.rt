//! Which schedules are read of small programs, and what is wrong with others, by their symbols: each function here is a
//! statement, proved by computation. A symbol has a space on either side, and symbols are numbered from 0.

ghost use Rattle.std.specs.Prelude.{◌≡◌, [], ◌∷◌, codes, Some, None, pos, negsuc, neg_ℤ};
ghost use Rattle.affc_basis.specs.Bases.{IsFirstBroken};
ghost use Rattle.affc_grammar.specs.Verdict.{line};
ghost use Rattle.affc_schedtext.specs.Answers.{IsFirstLost};
ghost use Rattle.affc_schedtext.specs.Examples.{blur, square, odd, idle, form, pair};
ghost use Rattle.affc_schedtext.specs.Grammar.{IsProduct};
ghost use Rattle.affc_schedtext.specs.Rules.{statement, length_of_line, fold, limit};
ghost use Rattle.affc_schedtext.specs.Verdict.{verdict, reads, syntax, breaks};

/// Which symbols are a text of the grammar, and where others stop.
pub fn grammar()
    ensures the_blur { verdict blur (line (codes "time 1 ; S0 : ( i ) ; i = t0 ; S1 : ( i + 2 ) ; i = t0 - 2 ;")) ≡ reads (Some (pair (form (pos 0 ∷ pos 1 ∷ []) (pos 0) ∷ []) (form (pos 0 ∷ pos 1 ∷ []) (pos 0) ∷ []) ∷ pair (form (pos 0 ∷ pos 1 ∷ []) (pos 2) ∷ []) (form (pos 0 ∷ pos 1 ∷ []) (negsuc 1) ∷ []) ∷ [])) [] }
    ensures nothing { verdict blur [] ≡ syntax 0 }
    ensures the_source_alone { verdict blur (line (codes "source ;")) ≡ reads None [] }
    ensures an_end_is_wanted { verdict blur (line (codes "source")) ≡ syntax 1 }
    ensures one_end { verdict blur (line (codes "source ; ;")) ≡ syntax 2 }
    ensures no_statements_behind_the_source { verdict blur (line (codes "source ; S0 : ( i ) ; i = t0 ;")) ≡ syntax 2 }
    ensures a_length_is_wanted { verdict blur (line (codes "time ;")) ≡ syntax 1 }
    ensures a_form_is_wanted { verdict blur (line (codes "time 1 ; S0 : ( ) ;")) ≡ syntax 6 }
    ensures no_calls { verdict blur (line (codes "time 1 ; S0 : ( affc_min ( i , 1 ) ) ;")) ≡ syntax 6 }
    ensures names_of_the_statement { verdict blur (line (codes "time 1 ; S0 : ( i + q ) ;")) ≡ syntax 8 }
    ensures no_components_in_time_forms { verdict blur (line (codes "time 1 ; S0 : ( t0 ) ;")) ≡ syntax 6 }
    ensures no_iterators_in_inverse_forms { verdict blur (line (codes "time 1 ; S0 : ( i ) ; i = i ;")) ≡ syntax 11 }
    ensures components_up_to_the_length { verdict blur (line (codes "time 1 ; S0 : ( i ) ; i = t1 ;")) ≡ syntax 11 }
    ensures the_length_is_that_of_the_time { verdict blur (line (codes "time 2 ; S0 : ( i ) ; i = t1 ; S1 : ( i , 0 ) ; i = t0 ;")) ≡ breaks (length_of_line 3) }
    ensures iterators_before_the_sign { verdict blur (line (codes "time 1 ; S0 : ( i ) ; j = t0 ;")) ≡ syntax 9 }
    ensures inverse_forms_are_wanted { verdict blur (line (codes "time 1 ; S0 : ( i ) ; S1 : ( i ) ; i = t0 ;")) ≡ syntax 9 }
    ensures the_list_ends_early { verdict square (line (codes "time 1 ; S1 : ( i ) ; i = t0 ;")) ≡ syntax 12 }
    ensures the_list_goes_on_too_long { verdict blur (line (codes "time 1 ; S0 : ( i ) ; i = t0 , j = t0 ;")) ≡ syntax 12 }
    ensures outer_to_inner { verdict square (line (codes "time 1 ; S1 : ( i ) ; j = t0 , i = t0 ;")) ≡ syntax 9 }
    ensures no_inverse_without_loops { verdict square (line (codes "time 1 ; S0 : ( 3 ) ; i = t0 ;")) ≡ syntax 10 }
    ensures statements_in_any_order { verdict square (line (codes "time 1 ; S1 : ( i ) ; i = t0 , j = 0 ; S0 : ( 3 ) ;")) ≡ reads (Some (pair (form (pos 0 ∷ pos 1 ∷ pos 0 ∷ []) (pos 0) ∷ []) (form (pos 0 ∷ pos 1 ∷ []) (pos 0) ∷ form (pos 0 ∷ pos 0 ∷ []) (pos 0) ∷ []) ∷ pair (form (pos 0 ∷ []) (pos 3) ∷ []) [] ∷ [])) [] }
    ensures a_parameter_called_as_a_component { verdict odd (line (codes "time 1 ; S0 : ( t0 ) ; i = t0 - t1 ;")) ≡ reads (Some (pair (form (pos 1 ∷ pos 0 ∷ pos 0 ∷ []) (pos 0) ∷ []) (form (pos 0 ∷ negsuc 0 ∷ pos 1 ∷ []) (pos 0) ∷ []) ∷ [])) [] }
{}

/// Folds, and lines of what is not known.
pub fn folds_and_unknown_lines()
    ensures a_fold { verdict square (line (codes "source ; fold g : ( x0 - x1 , x1 ) ; x0 = y0 , x1 = y1 ;")) ≡ reads None (pair (form (pos 1 ∷ negsuc 0 ∷ []) (pos 0) ∷ form (pos 0 ∷ pos 1 ∷ []) (pos 0) ∷ []) (form (pos 1 ∷ pos 0 ∷ []) (pos 0) ∷ form (pos 0 ∷ pos 1 ∷ []) (pos 0) ∷ []) ∷ []) }
    ensures a_fold_wants_inverse_forms { verdict blur (line (codes "source ; fold t : ( x0 ) ;")) ≡ syntax 9 }
    ensures no_parameters_in_folds { verdict blur (line (codes "source ; fold t : ( x0 + N ) ;")) ≡ syntax 8 }
    ensures subscripts_before_the_sign { verdict blur (line (codes "source ; fold t : ( x0 ) ; x1 = y0 ;")) ≡ syntax 9 }
    ensures as_many_inverse_forms_as_dimensions { verdict square (line (codes "source ; fold g : ( x0 , x1 ) ; x0 = y0 ;")) ≡ syntax 14 }
    ensures no_statements_behind_a_fold { verdict blur (line (codes "time 1 ; fold t : ( x0 ) ; x0 = y0 ; S0 : ( i ) ; i = t0 ;")) ≡ syntax 14 }
    ensures a_line_called_fold { verdict blur (line (codes "time 1 ; fold : ( 1 ) ;")) ≡ breaks (statement 3) }
    ensures no_line_called_fold_behind_folds { verdict blur (line (codes "source ; fold t : ( x0 ) ; x0 = y0 ; fold : ( 1 ) ;")) ≡ syntax 14 }
    ensures any_names_of_an_unknown_statement { verdict blur (line (codes "time 1 ; S7 : ( a + b , c ) ; d = e , f = g ; S0 : ( i ) ; i = t0 ;")) ≡ breaks (statement 3) }
    ensures an_unknown_statement_may_have_no_inverse { verdict blur (line (codes "time 1 ; S7 : ( a ) ; S0 : ( q ) ;")) ≡ syntax 12 }
    ensures any_names_of_an_unknown_array { verdict blur (line (codes "source ; fold q : ( a , b ) ; c = d , e = f , g = h ;")) ≡ breaks (fold 3) }
    ensures an_unknown_array_wants_inverse_forms { verdict blur (line (codes "source ; fold q : ( a ) ; fold t : ( x0 ) ; x0 = y0 ;")) ≡ syntax 10 }
    ensures names_of_an_array_parameter { verdict blur (line (codes "source ; fold in : ( x1 ) ; x0 = y0 ;")) ≡ syntax 6 }
    ensures no_folds_of_parameters { verdict blur (line (codes "source ; fold in : ( x0 ) ; x0 = y0 ;")) ≡ breaks (fold 3) }
    ensures any_names_of_a_scalar { verdict square (line (codes "source ; fold s : ( q , r ) ; z = w ;")) ≡ breaks (fold 3) }
{}

/// Products of names.
pub fn products()
    ensures of_two_names { verdict blur (line (codes "time 1 ; S0 : ( i * N ) ; i = t0 ;")) ≡ syntax 7 }
    ensures by_a_number { verdict blur (line (codes "time 1 ; S0 : ( 2 * i * 3 ) ; i = t0 ;")) ≡ breaks (statement 17) }
    ensures names_that_cancel { verdict blur (line (codes "time 1 ; S0 : ( ( i - i ) * N ) ; i = t0 ;")) ≡ syntax 11 }
    ensures behind_a_number { verdict blur (line (codes "time 1 ; S0 : ( i * - 2 * N ) ; i = t0 ;")) ≡ syntax 10 }
    ensures of_another_term { verdict blur (line (codes "time 1 ; S0 : ( i - 2 * N ) ; i = t0 ;")) ≡ breaks (statement 17) }
    ensures sides_that_are_not_complete { verdict blur (line (codes "time 1 ; S0 : ( i * ( N + ) ) ; i = t0 ;")) ≡ syntax 11 }
    ensures before_a_later_fault { verdict blur (line (codes "time 1 ; S0 : ( i * N + ) ; i = t0 ;")) ≡ syntax 7 }
    ensures before_an_unknown_name { verdict blur (line (codes "time 1 ; S0 : ( i * q ) ; i = t0 ;")) ≡ syntax 8 }
    ensures the_outer_one_first { verdict blur (line (codes "time 1 ; S0 : ( i * ( N * N ) ) ; i = t0 ;")) ≡ syntax 7 }
    ensures the_inner_one_alone { verdict blur (line (codes "time 1 ; S0 : ( i * ( N * N + ) ) ; i = t0 ;")) ≡ syntax 10 }
    ensures in_an_unknown_line { verdict blur (line (codes "time 1 ; S7 : ( a * b ) ;")) ≡ syntax 7 }
{}

/// What is wrong with texts of the grammar, and what of it comes first.
pub fn rules()
    ensures a_statement_is_missing { verdict blur (line (codes "time 1 ; S0 : ( i ) ; i = t0 ;")) ≡ breaks (statement 13) }
    ensures a_statement_stands_twice { verdict blur (line (codes "time 1 ; S0 : ( i ) ; i = t0 ; S1 : ( i ) ; i = t0 ; S0 : ( i ) ; i = t0 ;")) ≡ breaks (statement 23) }
    ensures no_leading_zeros { verdict blur (line (codes "time 1 ; S00 : ( i ) ;")) ≡ breaks (statement 3) }
    ensures statements_by_their_number { verdict blur (line (codes "time 1 ; S2 : ( i ) ;")) ≡ breaks (statement 3) }
    ensures another_number_of_components { verdict blur (line (codes "time 1 ; S0 : ( i , 0 ) ; i = t0 ; S1 : ( i + 2 ) ; i = t0 - 2 ;")) ≡ breaks (length_of_line 3) }
    ensures statements_before_lengths { verdict blur (line (codes "time 1 ; S0 : ( i , 0 ) ; i = t0 ;")) ≡ breaks (statement 15) }
    ensures lengths_before_folds { verdict blur (line (codes "time 2 ; S0 : ( i , 0 ) ; i = t0 ; S1 : ( i ) ; i = t0 ; fold in : ( x0 ) ; x0 = y0 ;")) ≡ breaks (length_of_line 15) }
    ensures folds_before_limits { verdict idle (line (codes "time 13 ; fold t : ( x0 ) ; x0 = y0 ;")) ≡ breaks (fold 4) }
    ensures a_fold_stands_twice { verdict blur (line (codes "source ; fold t : ( x0 ) ; x0 = y0 ; fold t : ( x0 ) ; x0 = y0 ;")) ≡ breaks (fold 14) }
    ensures as_many_rows_as_dimensions { verdict square (line (codes "source ; fold g : ( x0 ) ; x0 = y0 , x1 = y1 ;")) ≡ breaks (fold 3) }
    ensures twelve_components { verdict idle (line (codes "time 12 ;")) ≡ reads (Some []) [] }
    ensures thirteen_components { verdict idle (line (codes "time 13 ;")) ≡ breaks (limit 1) }
    ensures no_component { verdict idle (line (codes "time 0 ;")) ≡ breaks (limit 1) }
    ensures constants_up_to_2_to_the_30 { verdict square (line (codes "time 1 ; S0 : ( 1 + 1073741824 - 1 ) ; S1 : ( 0 ) ; i = 0 , j = 0 ;")) ≡ breaks (limit 6) }
    ensures constants_of_2_to_the_30 { verdict square (line (codes "time 1 ; S0 : ( 0 ) ; S1 : ( - 1073741824 ) ; i = 0 , j = 0 ;")) ≡ reads (Some (pair (form (pos 0 ∷ []) (pos 0) ∷ []) [] ∷ pair (form (pos 0 ∷ pos 0 ∷ pos 0 ∷ []) (neg_ℤ (pos 1073741824)) ∷ []) (form (pos 0 ∷ pos 0 ∷ []) (pos 0) ∷ form (pos 0 ∷ pos 0 ∷ []) (pos 0) ∷ []) ∷ [])) [] }
    ensures a_literal_that_passes { verdict square (line (codes "time 1 ; S0 : ( 0 * 1073741825 ) ; S1 : ( 0 ) ; i = 0 , j = 0 ;")) ≡ breaks (limit 6) }
    ensures a_coefficient_that_passes { verdict square (line (codes "time 1 ; S0 : ( 0 ) ; S1 : ( i - ( 257 * i ) ) ; i = 0 , j = 0 ;")) ≡ breaks (limit 12) }
    ensures coefficients_of_256 { verdict square (line (codes "time 1 ; S0 : ( N * 256 ) ; S1 : ( 0 ) ; i = 0 , j = 256 * t0 ;")) ≡ reads (Some (pair (form (pos 256 ∷ []) (pos 0) ∷ []) [] ∷ pair (form (pos 0 ∷ pos 0 ∷ pos 0 ∷ []) (pos 0) ∷ []) (form (pos 0 ∷ pos 0 ∷ []) (pos 0) ∷ form (pos 0 ∷ pos 256 ∷ []) (pos 0) ∷ []) ∷ [])) [] }
    ensures limits_of_inverse_forms { verdict square (line (codes "time 1 ; S0 : ( 0 ) ; S1 : ( 0 ) ; i = 0 , j = 1 + 257 * t0 ;")) ≡ breaks (limit 21) }
    ensures limits_of_folds { verdict blur (line (codes "source ; fold t : ( 257 * x0 ) ; x0 = y0 ;")) ≡ breaks (limit 6) }
{}

/// Forms that aren't undone, and the place of a product.
pub fn refusals()
    // (i), and i = t0 + 1
    ensures an_iterator_is_lost { IsFirstLost (form (pos 0 ∷ pos 1 ∷ []) (pos 0) ∷ []) (form (pos 0 ∷ pos 1 ∷ []) (pos 1) ∷ []) 0 }
    // (i), (j) and i = t0, j = t0
    ensures the_second_is_lost { IsFirstLost (form (pos 1 ∷ pos 0 ∷ []) (pos 0) ∷ form (pos 0 ∷ pos 1 ∷ []) (pos 0) ∷ []) (form (pos 1 ∷ pos 0 ∷ []) (pos 0) ∷ form (pos 1 ∷ pos 0 ∷ []) (pos 0) ∷ []) 1 }
    // (x0 - x1, x1), and x0 = y0, x1 = y1
    ensures a_subscript_is_lost { IsFirstBroken (form (pos 1 ∷ negsuc 0 ∷ []) (pos 0) ∷ form (pos 0 ∷ pos 1 ∷ []) (pos 0) ∷ []) (form (pos 1 ∷ pos 0 ∷ []) (pos 0) ∷ form (pos 0 ∷ pos 1 ∷ []) (pos 0) ∷ []) 0 }
    ensures a_product_stands_at_its_sign { IsProduct (line (codes "( 2 * i * N + 1")) 4 }
{}
