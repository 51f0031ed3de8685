ghost use Rattle.std.specs.Prelude.{◌≡◌, ◌<◌, IfSome, IfNone};
ghost use Rattle.page_pool.specs.Holding.{Holding, times, TakesPage, FindsNone, GivesPage};
ghost use Rattle.page_pool.specs.PageWords.{number_of};

use crate::Page;

/// What gives pages to one taker and gets them back.
pub trait Pages {
    /// What tells where the pages come from.
    type Mark;

    /// The pages that are out, with what their taker met so far.
    ghost holding: { Self → Holding Self.Mark };

    /// A page, or none where none is to be had.
    fn take(&mut self) -> Option<Page>
        ensures taken { IfSome result (λ page. TakesPage (holding self.old) (number_of page) (holding self.new)) }
        ensures dry { IfNone result (FindsNone (holding self.old) (holding self.new)) };

    /// Takes a page back that is out.
    fn give(&mut self, page: Page)
        requires { 0 < times (number_of page) (holding self.old).out }
        ensures { GivesPage (holding self.old) (number_of page) (holding self.new) };

    /// How often no page was to be had.
    fn dries(&self) -> u64
        ensures { result ≡ (holding self.now).dries };
}
