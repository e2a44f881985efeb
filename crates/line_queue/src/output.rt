ghost use Rattle.std.specs.Prelude.{◌≡◌, ◌∷◌, [], None, Some};
ghost use Rattle.line_queue.specs.Handing.{HandsOn, Puts, Takes};
ghost use Rattle.line_queue.specs.LineOutputs.{Changes, is_output_late, look_in, piped_in};

use crate::{LineQueue, OutputLook, Pipe};

/// An output for lines that may be closed. An open one is a [`LineQueue`]; of lines that are put
/// into a closed one nothing becomes.
#[derive(Drop)]
pub struct LineOutput<P> {
    pub queue: Option<LineQueue<P>>,
}

impl<P: Drop> LineOutput<P> {
    /// An open output.
    pub fn open(queue: LineQueue<P>) -> Self
        ensures { result.queue ≡ Some queue }
    {
        LineOutput { queue: Some(queue) }
    }

    /// A closed one: its lines go nowhere.
    pub fn nowhere() -> Self
        ensures { result.queue ≡ None }
    {
        LineOutput { queue: None }
    }
}

impl<P: Pipe> LineOutput<P> {
    /// Takes a line and hands it on, or drops it.
    pub fn put(&mut self, line: &[u8])
        ensures { Changes (Puts P.tells P.tape line.now) self.old.queue self.new.queue }
    {
        if let Some(queue) = &mut self.queue {
            queue.put(line);
        }
    }

    /// Takes a line for the next time that lines are handed on, or drops it.
    pub fn take(&mut self, line: &[u8])
        ensures { Changes (Takes P.tells P.tape (line.now ∷ []) 16 0) self.old.queue
            self.new.queue }
    {
        if let Some(queue) = &mut self.queue {
            queue.take(line);
        }
    }

    /// Hands on what waits, as far as it is taken at once.
    pub fn hand_on(&mut self)
        ensures { Changes (HandsOn P.tells P.tape 16 0) self.old.queue self.new.queue }
    {
        if let Some(queue) = &mut self.queue {
            queue.hand_on();
        }
    }

    /// Hands on what waits, as long as some of it is taken within a second.
    pub fn finish(&mut self)
        ensures { Changes (HandsOn P.tells P.tape 65536 1000) self.old.queue self.new.queue }
    {
        if let Some(queue) = &mut self.queue {
            queue.finish();
        }
    }
}

impl<P> LineOutput<P> {
    /// How the output is, for what an operator is told of it.
    pub fn look(&self) -> OutputLook
        ensures { result ≡ look_in self.now.queue }
    {
        match &self.queue {
            Some(queue) => queue.look(),
            None => OutputLook::default(),
        }
    }

    /// Whether lines wait until they are taken, or were dropped and it is not told yet.
    pub fn is_late(&self) -> bool
        ensures { result ≡ is_output_late self.now.queue }
    {
        match &self.queue {
            Some(queue) => queue.is_late(),
            None => false,
        }
    }

    /// How many bytes the process that writes its file was given, if there is one: 0 where the
    /// output has failed.
    pub fn piped_bytes(&self) -> u64
        ensures { result ≡ piped_in self.now.queue }
    {
        match &self.queue {
            Some(queue) => queue.piped_bytes(),
            None => 0,
        }
    }
}
