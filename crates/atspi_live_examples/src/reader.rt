//! Worked cases of what a reader takes, says, speaks and shows, and of how its runs end, with the values worked out by
//! hand. Each case is a clause of a function without a body. So a definition that says otherwise is refused here.

mod afters;
mod handed;
mod runs;
mod shows;
mod silence;
mod spoken;
mod statuses;
mod takings;

pub use afters::{first_calls, numbers, queued_calls, spent_readers};
pub use handed::{all_things, written_so_far};
pub use runs::{causes, cut_runs, ended_runs, faults_reported, last_words_told, runs_on_links};
pub use shows::{held_views, shown_rows};
pub use silence::silent_ends;
pub use spoken::{all_of_nothing, last_words_of_readers, spoken_lines};
pub use statuses::{endings_with_words, kept_lines, statuses_of_endings, words_cut_off};
pub use takings::{
    all_spoken, fronts_spoken, said_on_links, spoken_on_links, spoken_to_faults, spoken_to_spent,
};
