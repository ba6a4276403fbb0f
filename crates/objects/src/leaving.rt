// Where the walk over a policy was given up: what came before need not be judged again.
ghost use Rattle.std.specs.Prelude.{◌≡◌};
ghost use Rattle.objects.specs.Leaving.{inside};

// What is owed inside the value of Statement: what follows a statement of a list; members from a name on, of a statement
// that stands by itself; or of one in a list.
#[derive(Clone, Copy)]
pub enum Owed {
    Next,
    Alone,
    Listed,
}

// Where a policy was given up: before its text; behind a member that ends at a place; inside Statement.
#[derive(Clone, Copy)]
pub enum Place {
    Text,
    Behind(usize),
    Inside { at: usize, owed: Owed },
}

// Where a statement was given up: at the member whose name is to stand at a place; or as a whole.
#[derive(Clone, Copy)]
pub enum Lost {
    At(usize),
    Whole,
}

impl Lost {
    // The policy's place, where so much is owed at the statement's.
    pub fn inside(self, owed: Owed) -> Place
        ensures { result ≡ inside self owed }
    {
        match self {
            Lost::At(at) => Place::Inside { at, owed },
            Lost::Whole => Place::Text,
        }
    }
}
