//! Scripts over the collection of a handle, and their answers.

ghost use Rattle.std.specs.Prelude.{◌≡◌, [], false, length, drop, min, take, ◌++◌, IfErr, OnOk};
ghost use Rattle.jp_cli.specs.Runs.{setup_of, setup_with, state_of};
ghost use Rattle.jp_c.specs.Sessions.{Answers, AnswersFirst, left_in};

use crate::session::Session;
use jp_cli::RunFault;
use jp_model::Watched;
use jp_store::Store;
use std::alloc::Global;

impl Session {
    /// A collection over which nothing was asked.
    pub(crate) fn new(alloc: Global, store: Store) -> Session
        requires { store.is_metered ≡ false }
        ensures state { state_of result.collection ≡ store.state }
        ensures setup { setup_of result.collection ≡ setup_with store 4294967295 }
        ensures left { left_in result ≡ [] }
    {
        Session {
            collection: jp_cli::Session::new(alloc, u32::MAX, store),
            text: Vec::new(alloc),
            at: 0,
        }
    }

    /// Keeps a text to be read, in place of what was left.
    pub(crate) fn keep(&mut self, text: Vec<u8>)
        ensures left { left_in self.new ≡ text.items }
        ensures collection { self.new.collection ≡ self.old.collection }
    {
        self.at = 0;
        self.text = text;
    }

    /// Runs the commands of a script, and keeps what they answer.
    pub(crate) fn ask(&mut self, alloc: Global, script: &[u8]) -> Result<(), RunFault>
        ensures done { OnOk result (Answers self.old self.new script.now) }
        ensures stopped { IfErr result (λ _. AnswersFirst self.old self.new script.now) }
    {
        self.at = 0;
        self.text = Vec::new(alloc);
        let mut script = Watched::new(script);
        let mut answers = Watched::new(Vec::new(alloc));
        let ended = self.collection.run(&mut script, &mut answers);
        self.text = answers.into_inner();
        ended
    }

    /// How many bytes of the answer were not read.
    pub(crate) fn left(&self) -> usize
        ensures { result ≡ length (left_in self.now) }
    {
        self.text.len() - self.at
    }

    /// Copies the bytes of the answer that come next into the room, as many as both have, and answers how many.
    pub(crate) fn read(&mut self, room: &mut [u8]) -> usize
        ensures count { result ≡ min (length (left_in self.old)) (length room.old) }
        ensures copied { room.new ≡ take result (left_in self.old) ++ drop result room.old }
        ensures left { left_in self.new ≡ drop result (left_in self.old) }
        ensures collection { self.new.collection ≡ self.old.collection }
    {
        let rest = &self.text[self.at..];
        let count = rest.len().min(room.len());
        room[..count].copy_from_slice(&rest[..count]);
        self.at += count;
        count
    }
}
