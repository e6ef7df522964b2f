//! Laws that no other test calls.

use gp_check::typing_follows_the_rules;
use gp_csv::{answers_are_read_back, batches_hold_the_rows, cells_are_read_back};
use gp_grammar::canonical_texts_are_read;
use gp_script::{
    every_line_has_one_reply, refused_lines_change_nothing, scripts_lead_to_histories,
};

#[test]
fn laws_can_be_called(_rt: HostRuntime) {
    canonical_texts_are_read();
    typing_follows_the_rules();
    every_line_has_one_reply();
    refused_lines_change_nothing::<u64>();
    scripts_lead_to_histories::<u64>();
    answers_are_read_back();
    cells_are_read_back();
    batches_hold_the_rows();
}
