// A node table with the level of the sheet that it is lent as, right or not, and what C asks of the two.
ghost use Rattle.sheet.specs.Calls.{Checks, Decodes, FindsNeighbour, FindsCornerLeaf, FindsDiagonalLeaf};
ghost use Rattle.sheet.specs.Calls.{FindsDistances, FindsPonds, WritesFile, FindsCentre};

use ground::Ground;

#[derive(Clone, Copy)]
pub struct NodeTable<'a> {
    pub n: u32,
    pub table: &'a [u32],
}

impl NodeTable<'_> {
    pub fn check(self) -> u64
        ensures { Checks self.entry.n self.entry.table.now result }
    {
        sheet::sheet_check(self.n, self.table)
    }

    pub fn neighbour(self, node: u32, direction: u32) -> u64
        ensures { FindsNeighbour self.entry.n self.entry.table.now node direction result }
    {
        sheet::sheet_neighbour(self.n, self.table, node, direction)
    }

    pub fn corner_leaf(self, node: u32, side: u32, corner: u32) -> u64
        ensures { FindsCornerLeaf self.entry.n self.entry.table.now node side corner result }
    {
        sheet::sheet_corner_leaf(self.n, self.table, node, side, corner)
    }

    pub fn diagonal_leaf(self, node: u32, corner: u32) -> u64
        ensures { FindsDiagonalLeaf self.entry.n self.entry.table.now node corner result }
    {
        sheet::sheet_diagonal_leaf(self.n, self.table, node, corner)
    }

    pub fn distances(self, distances: &mut [u32]) -> u64
        ensures { FindsDistances self.entry.n self.entry.table.now distances.old result distances.new }
    {
        sheet::sheet_distance(self.n, self.table, distances)
    }

    pub fn ponds(self, numbers: &mut [u32], reg: &mut [u32]) -> u64
        ensures { FindsPonds self.entry.n self.entry.table.now numbers.old reg.old result numbers.new reg.new }
    {
        sheet::sheet_ponds(self.n, self.table, numbers, reg)
    }

    pub fn decode(self, raster: &mut [u8]) -> u64
        ensures { Decodes self.entry.n self.entry.table.now raster.old result raster.new }
    {
        sheet::sheet_decode(self.n, self.table, raster)
    }

    pub fn write(self, file: &mut [u8]) -> u64
        ensures { WritesFile self.entry.n self.entry.table.now file.old result file.new }
    {
        sheet::sheet_write(self.n, self.table, file)
    }

    pub fn centre(self, node: u32, ground: Ground, place: &mut [f64]) -> u64
        ensures { FindsCentre self.entry.n self.entry.table.now node ground place.old result place.new }
    {
        let Ground { east, north, step } = ground;
        sheet::sheet_centre(self.n, self.table, node, east, north, step, place)
    }
}
