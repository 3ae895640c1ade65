ghost use Rattle.std.specs.Prelude.{◌≡◌, take, slice_index};
ghost use Rattle.network.specs.Leaving.{leaving_of};

use super::super::link::OpenLink;
use super::Network;

impl Network {
    // All open links, by position.
    pub fn open_links(&self) -> &[OpenLink]
        ensures { result.now ≡ take (slice_index self.now.first self.now.places) self.now.links }
    {
        &self.links[..self.first[self.places] as usize]
    }

    // The open links that leave a place; none leave an unknown one.
    pub fn leaving(&self, place: usize) -> &[OpenLink]
        ensures { result.now ≡ leaving_of self.now place }
    {
        if place >= self.places {
            return &[];
        }
        &self.links[self.first[place] as usize..self.first[place + 1] as usize]
    }
}
