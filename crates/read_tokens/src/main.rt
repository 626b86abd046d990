// Reads a text of tokens, one a line, from standard input, and writes the ids, sixteen digits a line. What is refused, and why, is the crate `filter`.
#![tactic(auto)]

use tokens::Form;

fn main(rt: HostRuntime) {
    filter::run(input::standard_streams(rt), Form::Token, Form::Digits);
}
