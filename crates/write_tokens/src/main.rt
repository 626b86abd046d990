// Reads ids, sixteen digits a line, from standard input, and writes their tokens, one a line. What is refused, and why, is the crate `filter`.
#![tactic(auto)]

use tokens::Form;

fn main(rt: HostRuntime) {
    filter::run(input::standard_streams(rt), Form::Digits, Form::Token);
}
