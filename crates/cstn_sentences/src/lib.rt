//! Plans in sentences: lines that a person reads aloud, and the labelled network that they say.
#![tactic(auto)]

mod answer_laws;
mod bounds;
mod declarations;
mod errors;
mod faults;
mod forms;
mod judged;
mod laws;
mod lines;
mod meaning;
mod names;
mod observers;
mod printed;
mod reading;
mod rests;
mod saying_laws;
mod spans;
mod spelling;
mod words;
mod writing;

pub use answer_laws::plans_have_one_answer;
pub use errors::PlanError;
pub use laws::{
    lines_are_accepted, lines_are_read_back, names_are_read_back, sentences_are_cut_into_lines,
    ticks_are_read_back, words_are_read_back,
};
pub use lines::{Name, Word};
pub use names::push_printed;
pub use reading::read;
pub use saying_laws::{
    bounds_ask_what_they_say, forms_say_what_they_say, names_stand_for_their_moments,
    plans_say_what_their_lines_say, sentences_say_what_they_say, steps_are_declared_once,
};
pub use writing::sentences;
