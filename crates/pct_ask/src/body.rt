ghost use Rattle.std.specs.Prelude.{◌≡◌, ℤ, List, [], ◌∷◌, IsSome};
ghost use Rattle.pct_ask.specs.declared.ask.Post.{Post};

use crate::ask::Post;

/// The code of a thread, which posts asks and is told answers.
pub trait Body: Send + Drop {
    // The post that comes after a list of further answers.
    ghost pending: { Self → List ℤ → Post };

    /// What the thread asks now, or that it has ended.
    fn post(&self) -> Post
        ensures { result ≡ pending self.now [] };

    /// Goes on with the answer to what the thread asks.
    fn answer(&mut self, value: i64)
        requires { IsSome (pending self.old []).ask }
        ensures { (answers : List ℤ)
            → pending self.new answers ≡ pending self.old (value ∷ answers) };
}
