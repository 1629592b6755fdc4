// A channel's place on the bus: its address register and pages, and how they move.
ghost use Rattle.std.specs.Prelude.{◌≡◌, ℕ, suc, ◌%◌, ◌∷◌};
ghost use Rattle.bus.specs.Address.{address_of, moved_place, place_along, place_at, unit_of};
ghost use Rattle.bus.specs.Plan.{plan, planned};

// The address register, the low page and the high page.
#[derive(Clone, Copy, PartialEq, Eq, Debug)]
pub struct Place {
    pub address: u16,
    pub low: u8,
    pub high: u8,
}

// What the address register counts: bytes, or words whose address is shifted by one bit.
#[derive(Clone, Copy, PartialEq, Eq, Debug)]
pub enum Addressing {
    Bytes,
    Words,
}

// How an address moves: by which unit, over the whole 32 bits or not, down or up.
#[derive(Clone, Copy, PartialEq, Eq, Debug)]
pub struct Course {
    pub addressing: Addressing,
    pub extended: bool,
    pub decrement: bool,
}

impl Addressing {
    // The bytes of one unit.
    pub fn unit(self) -> u32
        ensures { result ≡ unit_of self }
    {
        match self {
            Addressing::Bytes => 1,
            Addressing::Words => 2,
        }
    }
}

impl Place {
    // The 32-bit address that these registers pass to the bus.
    pub fn bus_address(self, addressing: Addressing) -> u32
        ensures value { result ≡ address_of addressing self }
        ensures back { place_at addressing result self.low ≡ self }
    {
        let pages = u32::from(self.high) << 8 | u32::from(self.low);
        match addressing {
            Addressing::Bytes => pages << 16 | u32::from(self.address),
            Addressing::Words => (pages & 0xfffe) << 16 | u32::from(self.address) << 1,
        }
    }

    // The registers that pass this address; bit 0 of a shifted low page stays as it was.
    pub fn at(address: u32, addressing: Addressing, old_low: u8) -> Place
        ensures value { result ≡ place_at addressing address old_low }
        ensures back { address % unit_of addressing ≡ 0 → address_of addressing result ≡ address }
    {
        let pages = address >> 16;
        let high = (pages >> 8) as u8;
        match addressing {
            Addressing::Bytes => Place {
                address: (address & 0xffff) as u16,
                low: (pages & 0xff) as u8,
                high,
            },
            Addressing::Words => Place {
                address: (address >> 1 & 0xffff) as u16,
                low: (pages & 0xfe) as u8 | old_low & 1,
                high,
            },
        }
    }

    // The registers after k units have passed. Down by k is up by what k lacks to 2^32.
    fn along(self, course: Course, k: u32) -> Place
        ensures { result ≡ place_along course self k }
    {
        let way = if course.decrement {
            k.wrapping_neg()
        } else {
            k
        };
        if course.extended {
            let here = self.bus_address(course.addressing);
            let next = here.wrapping_add(course.addressing.unit().wrapping_mul(way));
            return Place::at(next, course.addressing, self.low);
        }
        let address = self.address.wrapping_add((way & 0xffff) as u16);
        Place { address, ..self }
    }

    // The registers after one unit has passed.
    pub fn moved(self, course: Course) -> Place
        ensures value { result ≡ moved_place course self }
        ensures rest { (n : ℕ) → plan course self (suc n) ≡ address_of course.addressing self ∷ plan course result n }
    {
        self.along(course, 1)
    }

    // The address that the k-th unit from here passes, counted from 0.
    pub fn nth(self, course: Course, k: u32) -> u32
        ensures { result ≡ planned course self k }
    {
        self.along(course, k).bus_address(course.addressing)
    }
}
