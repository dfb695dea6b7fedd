//! Why the image of a program's state tells where the program stands, and so does the number of what comes next in it;
//! no code runs here.
//!
//! Below stand `image_places` and `program_ends`, which read that off the image or the number, and `process_images`
//! with what the words of frames are. The layer above uses the laws that what is read is what comes next in the state.
#![tactic(auto)]

pub mod laws;

pub use laws::{a_number_tells_the_line_of_what_comes_next, an_image_tells_what_comes_next};
