/// A message that found no room, handed back.
#[derive(Debug, Drop)]
pub struct Full<M>(pub M);
