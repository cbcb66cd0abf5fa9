// What steps give over tables that aren't whole, as theorems of functions that do nothing.
ghost use Rattle.std.specs.Prelude.{◌∷◌, [], false};
ghost use Rattle.ps_frame.specs.Functions.{Functions};
ghost use Rattle.ps_frame.specs.Tables.{no_rows, whole};
ghost use Rattle.ps_frame.specs.declared.value.DataFault.TheVariants as fault;
ghost use Rattle.ps_meaning.specs.Steps.{join};
ghost use Rattle.ps_meaning.specs.declared.options.JoinType.TheVariants as how;
ghost use Rattle.plan_laws.specs.Broken.{GivesEither, GivesOnly, both_faults, broken_by, broken_keys, broken_numerals, broken_texts, faulty_key, filled_keys, full_front, keys, left_fault, lost_cast, no_keys, no_texts, on_key, pairs_of_one, right_fault, sum_by_key};
ghost use Rattle.plan_laws.specs.Examples.{k_column, k_frame, plain_join};
ghost use Rattle.plan_laws.specs.Ordered.{at_two, full_ordered, keys_and_texts, left_ordered};

/// Joins over a left input that isn't whole go on with its rows: no right row comes last. Where the right one isn't whole, or for a semi join, there are no rows.
pub fn joins_of_broken_sides()
    ensures inner { (F : Functions) → GivesOnly F (on_key how.Inner) (broken_keys ∷ whole keys_and_texts ∷ []) (broken_by left_fault pairs_of_one) }
    ensures left { (F : Functions) → GivesOnly F (on_key how.Left) (broken_keys ∷ whole keys_and_texts ∷ []) (broken_by left_fault left_ordered) }
    ensures right { (F : Functions) → GivesOnly F (on_key how.Right) (broken_keys ∷ whole keys_and_texts ∷ []) (broken_by left_fault pairs_of_one) }
    ensures full { (F : Functions) → GivesOnly F (on_key how.Full) (broken_keys ∷ whole keys_and_texts ∷ []) (broken_by left_fault full_front) }
    ensures semi { (F : Functions) → GivesOnly F (on_key how.Semi) (broken_keys ∷ whole keys_and_texts ∷ []) (no_rows keys (left_fault ∷ [])) }
    ensures broken_right { (F : Functions) → GivesOnly F (on_key how.Full) (whole (k_frame (3 ∷ 1 ∷ [])) ∷ broken_texts ∷ []) (no_rows full_ordered.schema (right_fault ∷ [])) }
    ensures both_broken { (F : Functions) → GivesOnly F (on_key how.Full) (broken_keys ∷ broken_texts ∷ []) (no_rows full_ordered.schema (left_fault ∷ right_fault ∷ [])) }
{}

/// What is lost beside a left input that isn't whole: a fault of the right key over no rows, and one of the left key itself.
pub fn lost_beside_broken_sides()
    ensures of_the_right { (F : Functions) → GivesEither F (join (plain_join how.Left false k_column faulty_key)) (broken_keys ∷ no_texts ∷ []) (broken_by left_fault filled_keys) lost_cast }
    ensures of_the_left { (F : Functions) → GivesEither F (join (plain_join how.Full false faulty_key k_column)) (no_keys ∷ whole keys_and_texts ∷ []) (no_rows full_ordered.schema (left_fault ∷ at_two fault.StrictCast ∷ [])) lost_cast }
{}

/// A group-by over an input that isn't whole is broken by that and by its aggregates over the rows that are there.
pub fn group_of_broken_rows()
    ensures { (F : Functions) → GivesOnly F sum_by_key (broken_numerals ∷ []) both_faults }
{}
