//! What an edit may keep of a tree, and why: laws (docs/EDITS.md). It has no code of its own, and passes on what the
//! crates above name of `typst_grammar` and `typst_language`.
#![tactic(auto)]

mod laws;

pub use laws::{
    answer_law, answers_of_texts, block_law, block_test_law, block_worth_law, blocks_of_texts,
    candidate_law, candidate_runs_law, candidates_law, children_law, complete_law,
    conditions_of_texts, decision_law, empty_run_law, head_law, inner_pieces_test_law,
    inner_run_test_law, inner_splices_of_texts, inner_worth_law, joint_law, joints_of_texts,
    leading_law, mode_law, notes_law, numbered_notes_law, one_reading_law, origins_of_texts,
    part_law, path_law, piece_candidates_law, pieces_test_law, pieces_worth_law,
    rare_conditions_of_texts, replaced_law, resume_law, rising_law, root_worth_law, run_law,
    run_numbers_law, run_test_law, runs_of_texts, served_law, splice_law, splices_of_texts,
    standing_law,
};
pub use typst_grammar::{
    MAX_DEPTH, Noted, PieceReader, ReadPart, RunKind, parse, parse_block, parse_code, parse_math,
    parse_noted, resume_pieces,
};
pub use typst_language::{Block, Carried, Mark, Note};
