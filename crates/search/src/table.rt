ghost use Rattle.std.specs.Prelude.{◌≡◌, ◌+◌, ◌*◌, slice_set};
ghost use Rattle.search.specs.Rows.{place_at};

use assignments::Place;

// The work table over a lent slice: the place of a node and a server is at node × servers + server. A place past the end of
// the slice is empty, and stays so.
#[derive(Drop)]
pub struct Table<'a, P> {
    pub places: &'a mut [Option<Place<P>>],
    pub servers: u16,
}

impl<'a, P: Copy> Table<'a, P> {
    // Where the place of a node at a server is.
    fn index(&self, node: u16, server: u16) -> usize
        ensures { result ≡ node * self.now.servers + server }
    {
        usize::from(node) * usize::from(self.servers) + usize::from(server)
    }

    // The place of a node at a server.
    pub fn at(&self, node: u16, server: u16) -> Option<Place<P>>
        ensures { result ≡ place_at self.now.places.now self.now.servers node server }
    {
        self.places.get(self.index(node, server)).copied().flatten()
    }

    // Writes the place of a node at a server; all other places stay.
    pub fn put(&mut self, node: u16, server: u16, place: Option<Place<P>>)
        ensures after { self.new.places.now ≡ slice_set self.old.places.now (node * self.old.servers + server) place }
        ensures servers { self.new.servers ≡ self.old.servers }
        ensures lent { self.new.places.ghost_name ≡ self.old.places.ghost_name }
    {
        let k = self.index(node, server);
        if k < self.places.len() {
            self.places[k] = place;
        }
    }
}
