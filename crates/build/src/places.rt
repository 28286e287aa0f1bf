// Eight bytes put among thirty-two.
ghost use Rattle.std.specs.Prelude.{◌≡◌, ◌≤◌};
ghost use Rattle.build.specs.Sets.{placed};

// The bytes with a route's eight put at a place, the others as they are.
pub(crate) fn placed_at(bytes: [u8; 32], place: usize, route: [u8; 8]) -> [u8; 32]
    requires { place ≤ 24 }
    ensures { result ≡ placed place route bytes }
{
    let mut all = bytes;
    all[place..place + 8].copy_from_slice(&route);
    all
}
