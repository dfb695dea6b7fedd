ghost use Rattle.std.specs.Prelude.{◌≡◌, ◌<◌, ◌≤◌, ◌+◌, length, replicate, slice_get, slice_index, slice_set};
ghost use Rattle.checkpoint_image.specs.gd_words.specs.Ranges.{HasNext};
ghost use Rattle.checkpoint_image.specs.gd_words.specs.declared.limits.TheConstants.{MOST_FILES};

use arrayvec::ArrayVec;
use checkpoint_image::MOST_FILES;
use std::marker::Model;

/// How many files a process has at most.
const FILES: usize = MOST_FILES as usize;

/// The number of the next request on each file of a process, from file 0 on.
#[derive(Drop)]
pub struct Asker {
    next: ArrayVec<u32, FILES>,
}

impl Model for Asker {
    ghost use Rattle.std.specs.Prelude.{List, ℕ};

    ghost Value = { List ℕ };

    ghost view = { λ asker. asker.next.items };
}

impl Asker {
    /// So many files, of each of which the next request is its first.
    pub fn new(files: u8) -> Asker
        requires { files ≤ MOST_FILES }
        ensures { result ≡ replicate files 1 }
    {
        let mut next = ArrayVec::new();
        for _file in 0..files {
            next.push(1);
        }
        Asker { next }
    }

    /// How many files there are.
    pub fn len(&self) -> usize
        ensures value { result ≡ length self.now }
        ensures few { result ≤ MOST_FILES }
    {
        self.next.len()
    }

    /// The number of the next request on a file, if the file is there.
    pub fn get(&self, file: u8) -> Option<u32>
        ensures { result ≡ slice_get self.now file }
    {
        self.next.as_slice().get(usize::from(file)).copied()
    }

    /// All next numbers, from file 0 on.
    pub fn as_slice(&self) -> &[u32]
        ensures { result.now ≡ self.now }
    {
        self.next.as_slice()
    }

    /// The number of the next request on a file.
    pub fn next(&self, file: u8) -> u32
        requires { file < length self.now }
        ensures { result ≡ slice_index self.now file }
    {
        self.next[usize::from(file)]
    }

    /// The next request on a file was sent.
    pub fn asked(&mut self, file: u8)
        requires there { file < length self.old }
        requires room { HasNext (slice_index self.old file) }
        ensures { self.new ≡ slice_set self.old file (slice_index self.old file + 1) }
    {
        self.next[usize::from(file)] += 1;
    }

    /// Puts the number of the next request on a file, as a checkpoint tells it.
    pub fn set(&mut self, file: u8, next: u32)
        requires { file < length self.old }
        ensures { self.new ≡ slice_set self.old file next }
    {
        self.next[usize::from(file)] = next;
    }
}
